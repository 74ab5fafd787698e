//! Reads the items of Rust source text into the syntax that an item tree is made from, and what stands in the braces of
//! an item, one level deep: the functions, constants, types and macro calls of a trait or an impl, the variants of an
//! enum, the fields of a struct or a union.
#![tactic(auto)]

mod associated;
mod blocks;
mod cut;
mod externs;
mod ids;
mod items;
mod laws;
pub mod line_ends;
mod log;
mod member;
mod members;
mod part;
mod source_file;
mod turn;

pub use blocks::{SourceBlock, read_block};
pub use cut::cut_out;
pub use log::{Problem, ProblemKind};
pub use member::{Member, MemberKind};
pub use members::read_members;
pub use rust_leaves::{Wanted, WantedMetas};
pub use rust_paths::TextRange;
pub use source_file::{ItemPlace, SourceFile, read_source_file, read_wanted};
