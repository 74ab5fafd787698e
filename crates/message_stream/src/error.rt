//! Why a conversation fails.
use thiserror::Error;

/// Why a conversation ends before the end of its input.
#[derive(Clone, Copy, Debug, PartialEq, Eq, Error)]
pub enum StreamError {
    /// A read failed, or the input has no end in sight.
    #[error("reading failed")]
    Read,
    /// A write or a flush failed, or a write took nothing.
    #[error("writing failed")]
    Write,
    /// No header of at most 32 fields and 8,192 bytes begins so.
    #[error("the header of a message is wrong")]
    Header,
    /// A header says no length below 2^64.
    #[error("the header of a message says no length")]
    Length,
    /// The input ends within a message: behind a part of it, and before its last byte.
    #[error("the input ends within a message")]
    Cut,
    /// There was no memory for a header.
    #[error("out of memory")]
    OutOfMemory,
}
