//! What is left of the tokens of Rust source text, and what readers of it are made of.
#![tactic(auto)]

mod among;
mod cursor;
mod lists;

pub use among::{first_byte, has_length, is_among, last_byte, middle_byte};
pub use cursor::{Cursor, Excerpt};
pub use lists::push_some;
