//! A session for Rust texts that are edited: a table of item trees, the texts of its files, and an index of its names.
//! `Session` keeps them together under edits.
#![tactic(auto)]

mod difference;
mod edit;
mod error;
mod inside;
mod laws;
mod meaning;
mod retyped;
mod session;
mod splice;
mod texts;
mod touched;

pub use edit::TextEdit;
pub use error::EditError;
pub use session::Session;
pub use splice::{ChangeFault, MOST_BYTES};
pub use texts::SourceText;
