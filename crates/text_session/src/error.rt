//! Why edits are not all made.
ghost use Rattle.std.specs.Prelude.{◌≡◌};
ghost use Rattle.text_session.specs.declared.error.EditError.TheVariants.{OutOfMemory};

use crate::splice::ChangeFault;
use item_tree::EditFault;
use source_rows::ReadError;
use std::alloc::{AllocError, AllocFailed};
use thiserror::Error;

/// Why edits are not all made.
#[derive(Clone, Copy, Debug, Error)]
pub enum EditError {
    /// The edit at this place of the list, counted from 0, cannot give a file its text. None is made.
    #[error("edit {place}: {cause}")]
    NotChanged { place: usize, cause: ChangeFault },
    /// The edit at this place passes a size. Those before it are made, and it and those behind it are not.
    #[error("edit {place}: {cause}")]
    Refused { place: usize, cause: EditFault },
    /// The allocator refused memory, or the mended text of a text would have more than 2^32 bytes. The first edits are
    /// made, down to none.
    #[error("out of memory")]
    OutOfMemory,
}

impl From<AllocError> for EditError {
    ghost from_gives = { λ _ e. e ≡ OutOfMemory };

    fn from(_error: AllocError) -> EditError {
        EditError::OutOfMemory
    }
}

impl<T: Drop> From<AllocFailed<T>> for EditError {
    ghost from_gives = { λ _ e. e ≡ OutOfMemory };

    fn from(_failed: AllocFailed<T>) -> EditError {
        EditError::OutOfMemory
    }
}

impl From<ReadError> for EditError {
    ghost from_gives = { λ _ e. e ≡ OutOfMemory };

    fn from(_error: ReadError) -> EditError {
        EditError::OutOfMemory
    }
}
