//! Reads the items of Rust source text that hold no items, what stands in front of any, and statements.
#![tactic(auto)]

mod calls;
mod front;
mod head;
mod laws;
mod leaf;
mod modifiers;
mod named;
mod statement_calls;
mod statements;
mod structs;
mod texts;
mod uses;
mod wanted;

pub use front::{Front, front_behind, take_front, wanted_front};
pub use head::{Head, pass_others};
pub use leaf::{Leaf, take_leaf};
pub use named::{Named, item_name, join_attributes};
pub use rust_metas::WantedMetas;
pub use statement_calls::{Call, statement_call};
pub use statements::{is_item, pass_statement};
pub use wanted::Wanted;
