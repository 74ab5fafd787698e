//! Why a syntax has no tree, and why an edit is refused.

use item_tree_attrs::{AttrError, MergeRefused};
use std::alloc::{AllocError, AllocFailed};
use thiserror::Error;

/// Why a syntax has no tree: a size is passed, or memory ran out. rust-analyzer has no such errors.
#[derive(Clone, Copy, Debug, PartialEq, Eq, Error)]
pub enum LowerError {
    /// More than 2^31 - 1 items.
    #[error("too many items")]
    TooManyItems,
    /// More than 2^32 - 4 distinct visibilities in modules.
    #[error("too many visibilities")]
    TooManyVisibilities,
    /// More than 2^32 - 1 nodes written in one use tree, of which something is kept.
    #[error("too many use trees")]
    TooManyUseTrees,
    /// More than 2^32 - 1 attributes that an item or the top collects.
    #[error("too many attributes")]
    TooManyAttributes,
    /// More than 2^32 - 1 times `super` in the paths from the root of a use tree to one of its nodes.
    #[error("too many supers")]
    TooManySupers,
    /// The allocator refused memory.
    #[error("out of memory")]
    OutOfMemory,
}

/// Why an edit is refused. rust-analyzer has no such errors.
#[derive(Clone, Copy, Debug, PartialEq, Eq, Error)]
pub enum EditFault {
    /// The last number of an edit is taken.
    #[error("too many edits")]
    TooManyEdits,
    /// A tree that the edit asks for cannot be made.
    #[error("{0}")]
    Lower(LowerError),
}

impl From<AllocError> for LowerError {
    ghost use Rattle.std.specs.Prelude.{◌≡◌};
    ghost use Rattle.item_tree.specs.declared.fault.LowerError.TheVariants.{OutOfMemory};

    ghost from_gives = { λ _ e. e ≡ OutOfMemory };

    fn from(_e: AllocError) -> LowerError {
        LowerError::OutOfMemory
    }
}

impl<T: Drop> From<AllocFailed<T>> for LowerError {
    ghost use Rattle.std.specs.Prelude.{◌≡◌};
    ghost use Rattle.item_tree.specs.declared.fault.LowerError.TheVariants.{OutOfMemory};

    ghost from_gives = { λ _ e. e ≡ OutOfMemory };

    fn from(_e: AllocFailed<T>) -> LowerError {
        LowerError::OutOfMemory
    }
}

impl From<AttrError> for LowerError {
    ghost use Rattle.std.specs.Prelude.{◌≡◌};
    ghost use Rattle.item_tree.specs.Size.{attr_fault};

    ghost from_gives = { λ refused e. e ≡ attr_fault refused };

    fn from(refused: AttrError) -> LowerError {
        match refused {
            AttrError::TooMany => LowerError::TooManyAttributes,
            AttrError::OutOfMemory => LowerError::OutOfMemory,
        }
    }
}

/// Keeps the cause alone: both sides that the refusal hands back are dropped.
impl From<MergeRefused> for LowerError {
    ghost use Rattle.std.specs.Prelude.{◌≡◌};
    ghost use Rattle.item_tree.specs.Size.{attr_fault};

    ghost from_gives = { λ refused e. e ≡ attr_fault refused.cause };

    fn from(refused: MergeRefused) -> LowerError {
        LowerError::from(refused.cause)
    }
}
