//! Moves what was read of a text with an edit inside a body, without reading it anew, and the laws above the reader
//! that allow it: what typing in a body leaves as it is (`specs/Typing`), and how items are read that stand beside
//! others (`specs/ItemJoins`).
#![tactic(auto)]

mod alone;
mod edit;
mod laws;
mod parts;
mod shift;

pub use edit::{BodyEdit, edit_inside};
pub use shift::Shift;
