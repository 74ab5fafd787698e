//! Mends the brackets of Rust source text, as far as its lines tell where they end.
#![tactic(auto)]

mod bracket;
mod edit;
mod ends;
mod laws;
mod line;
mod mark;
mod reached;
mod replaced;
mod text;

pub use bracket::{Bracket, bracket_of, is_same};
pub use edit::{Edit, EditKind};
pub use text::{Mended, edits, mend};
