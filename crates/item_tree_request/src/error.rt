//! Why a run fails.
ghost use Rattle.std.specs.Prelude.{◌≡◌};
ghost use Rattle.item_tree_request.specs.Status.{status_of};

use item_tree::EditFault;
use thiserror::Error;

/// Why a run has no output. It is displayed as the line for standard error.
#[derive(Clone, Copy, Debug, PartialEq, Eq, Error)]
pub enum RunError {
    /// The input is no JSON text in UTF-8, or one that nests deeper than 127 or holds a number past the floats
    /// of 64 bits.
    #[error("not JSON")]
    NotJson,
    /// The input is JSON, but no request: a key is missing or of a wrong form, or names a crate that is not
    /// there.
    #[error("not a request")]
    NotRequest,
    /// An edit passes a size: its place in the list, counted from 0, and the size.
    #[error("edit {place} refused: {cause}")]
    Refused { place: usize, cause: EditFault },
    /// The allocator refused memory.
    #[error("out of memory")]
    OutOfMemory,
    /// A read failed, or the input has no end in sight.
    #[error("reading failed")]
    Read,
    /// A write failed, or took nothing.
    #[error("writing failed")]
    Write,
}

impl RunError {
    /// The exit status that stands for the error.
    pub fn status(&self) -> u8
        ensures { result ≡ status_of self.now }
    {
        match self {
            RunError::NotJson => 2,
            RunError::NotRequest => 3,
            RunError::Refused { .. } => 4,
            RunError::OutOfMemory => 5,
            RunError::Read | RunError::Write => 6,
        }
    }
}
