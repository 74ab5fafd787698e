//! Requests line by line over one session that lives from line to line: a table of item trees, with files as Rust
//! source. `Conversation` is a service of `message_stream`.
#![tactic(auto)]

mod conversation;
mod edit;
mod error;
mod expected;
mod found;
mod keys;
mod laws;
mod line;
mod list;
mod parts;
mod reply;
mod scopes;
mod searched;
mod show;
mod shown;
mod sought;
mod table_changes;
mod units;

pub use conversation::Conversation;
pub use error::LineError;
pub use line::USUAL_SKIPPED;
pub use show::LineShow;
pub use sought::{Searched, SoughtItem};
