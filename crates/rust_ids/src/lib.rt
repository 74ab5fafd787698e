//! The ids that rust-analyzer gives the items of a file: a hash of an item's name and a number among those of its kind
//! with this hash.
#![tactic(auto)]

mod hash;
mod ids;
mod laws;
mod numbering;

pub use hash::{name_hash, name_hash_in};
pub use ids::{Node, assign};
