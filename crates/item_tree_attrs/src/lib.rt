//! The attributes of one owner: collected from its metas under the options of a crate, joined, and asked.
#![tactic(auto)]

mod collect;
mod laws;
mod merge;
mod query;

pub use collect::{AttrError, AttrsOrCfg, AttrsOwned};
pub use merge::MergeRefused;
pub use query::{AttrIter, AttrQuery, Attrs, KeyedAttrs, TtValues};
