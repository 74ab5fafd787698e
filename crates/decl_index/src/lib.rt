//! An incremental index of the items of a table by their names, by the public calls of the crates below alone: where
//! each name is declared, read again only for the trees that changed.
#![tactic(auto)]

mod by_name;
mod by_tree;
mod catalog;
mod entry;
mod gone;
mod index;

pub use entry::Entry;
pub use index::DeclIndex;
