//! All that is wrong with Rust source text, as far as its items, its brackets and its quotes are read; and conflict
//! markers.
#![tactic(auto)]

mod brackets;
mod conditions;
mod items;
mod laws;
mod macro_trees;
mod markers;
mod metas;
mod problem;
mod quotes;
mod text;
mod use_trees;

pub use problem::{SourceProblem, SourceProblemKind};
pub use text::source_problems;
