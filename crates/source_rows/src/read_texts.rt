//! Texts that are read.

ghost use Rattle.std.specs.Prelude.{◌≤◌, ◌^◌, length, IfOk, IfErr, OnOk};
ghost use Rattle.rust_items.specs.SourceFiles.{IsClippedFile, file_view};
ghost use Rattle.source_rows.specs.ListedFiles.{HasFileIds, IsUnreadText};

use hir_input::EditionYear;
use rust_items::{SourceFile, Wanted, read_wanted};
use std::alloc::{AllocError, Global};

/// Why a text is not read.
#[derive(Clone, Copy, Debug)]
pub enum ReadError {
    /// More than 2^32 bytes, so that its items could have no ids of their own.
    TooLong,
    OutOfMemory,
}

impl From<AllocError> for ReadError {
    ghost use Rattle.std.specs.Prelude.{◌≡◌};
    ghost use Rattle.source_rows.specs.declared.read_texts.ReadError.TheVariants.{OutOfMemory};

    ghost from_gives = { λ _ e. e ≡ OutOfMemory };

    fn from(_error: AllocError) -> ReadError {
        ReadError::OutOfMemory
    }
}

const MOST_BYTES: usize = 0x1_0000_0000;

/// Reads what is wanted of a text of an edition.
///
/// # Errors
///
/// `TooLong` exactly where the text has more than 2^32 bytes, and `OutOfMemory`.
pub fn read_text(
    alloc: Global,
    text: &str,
    wanted: Wanted,
    edition: EditionYear,
) -> Result<SourceFile, ReadError>
    ensures file { IfOk result
        (λ file. IsClippedFile wanted edition text.now (file_view file)) }
    ensures ids { IfOk result HasFileIds }
    ensures short { OnOk result (length text.now ≤ 2 ^ 32) }
    ensures refused { IfErr result (IsUnreadText text.now) }
{
    if text.len() > MOST_BYTES {
        return Err(ReadError::TooLong);
    }
    let file = read_wanted(alloc, text, wanted, edition)?;
    Ok(file)
}
