//! A table of item trees: for each place that was set its syntax and, in each crate, its tree, kept under edits.
#![tactic(auto)]

mod crate_options;
mod edit;
mod laws;
mod place;
mod recent;
mod rows;
mod shelf;
mod since;
mod source;
mod sources;
mod tree_id;

pub use edit::{AllRefused, Edit, EditRefused};
pub use place::Place;
pub use since::ChangedSince;
pub use sources::Sources;
pub use tree_id::{TreeId, file_item_tree};
