//! A request over the syntaxes of files, written as the JSON that is read here.
//!
//! The request has one crate, whose root is file 0, and sets each file to its syntax, numbered from 0. Reading what is
//! written gives exactly this request.

mod depth;
mod parts;
pub(crate) mod request;

pub use request::{RequestFault, RequestOptions, request_text};
