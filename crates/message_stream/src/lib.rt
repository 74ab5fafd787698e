//! A conversation of messages: each message of a reader is answered by messages, written whole and flushed before the
//! next one is read, up to the end of the reader; where none waits the service rests. Messages are lines, or stand
//! behind headers that say how long they are, as the Language Server Protocol has them.
#![tactic(auto)]

mod conversation;
mod error;
mod framing;
mod headers;
mod laws;
mod lines;
mod message;
mod sections;
mod service;
mod write;

pub use conversation::serve;
pub use error::StreamError;
pub use framing::{Framing, Next};
pub use headers::Headers;
pub use lines::Lines;
pub use message::{MOST_MESSAGE, Message};
pub use service::{Answer, Service};
