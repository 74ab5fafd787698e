//! A language server for open texts.
#![tactic(auto)]

mod change;
mod client;
mod diagnostics;
mod document;
mod edits;
mod folding;
mod highlight;
mod laws;
mod listed;
mod message;
mod method;
mod opening;
mod parts;
mod phase;
mod position;
mod ranges;
mod response;
mod selection;
mod server;
mod surrogates;
mod symbol;
mod symbols;
mod text;
mod untold;

pub use client::Client;
pub use phase::Phase;
pub use server::Server;
