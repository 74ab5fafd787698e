//! How the entries of lists are written: as lines, in colours of a terminal or not, or as JSON.
#![tactic(auto)]

mod colors;
mod laws;
mod lines;

pub use colors::{BOLD, CYAN, FAINT, GREEN, RED, USUAL, YELLOW, push_color, push_colored};
pub use lines::{Form, column_number, line_number, value_line};
