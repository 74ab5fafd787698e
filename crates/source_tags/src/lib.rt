//! Tags of Rust source, by which editors jump to names.
#![tactic(auto)]

mod block_items;
mod laws;
mod line_searches;
mod safe_texts;
mod tag_bodies;
mod tag_fields;
mod tags;

pub use tag_bodies::TagChoice;
pub use tag_fields::TagFields;
pub use tags::{Address, TagForm, tag_lines, usual_fields};
