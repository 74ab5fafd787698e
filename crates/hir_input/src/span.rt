//! Spans.

use crate::ids::SyntaxContext;

/// A stretch of a file from `start` up to `end`, in bytes, and where its tokens come from. rust-analyzer's `Span`.
#[derive(Clone, Copy, Debug, PartialEq, Eq)]
pub struct Span {
    pub start: u32,
    pub end: u32,
    pub ctxt: SyntaxContext,
}
