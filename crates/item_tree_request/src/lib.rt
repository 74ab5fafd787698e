//! A request, read as JSON from a reader: its edits of files, blocks and cfg options are made in a table of item
//! trees, and the pages, the imports and the changes that it asks for are written to a writer. A program that writes
//! other texts of its shows is a `ShowWriter`.
#![tactic(auto)]

mod answer;
mod error;
mod imports;
mod laws;
pub mod request;
mod runner;
pub mod show;
pub mod show_writer;
mod stream;
pub mod write;

pub use error::RunError;
pub use runner::{run, run_with};
