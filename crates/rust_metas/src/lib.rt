//! Reads the attributes of Rust source text: metas, literals and conditions.
#![tactic(auto)]

mod attribute;
mod condition;
mod escape;
mod laws;
mod literal;
mod meta;
mod string;
mod unread;
mod wanted;

pub use attribute::{
    inner_attributes, kept_inner_attributes, kept_outer_attributes, outer_attributes,
};
pub use wanted::WantedMetas;
