//! Why a line has no shows.
ghost use Rattle.std.specs.Prelude.{◌≡◌, IfOk};
ghost use Rattle.serde_json.specs.View.{view};
ghost use Rattle.source_session.specs.Errors.{cause_text, edit_error, error_form, fault_text, line_error};
ghost use Rattle.source_session.specs.Errors.{unchanged_form};
ghost use Rattle.source_session.specs.declared.error.LineError.TheVariants.{OutOfMemory};

use crate::expected::expected_words;
use hir_input_json::{Fault, Pointer};
use item_tree::{EditFault, LowerError};
use serde_json::{Value, json};
use std::alloc::{AllocError, AllocFailed, Global};
use text_session::{ChangeFault, EditError};

/// Why a line is answered with an error.
#[derive(Debug, Drop)]
pub enum LineError {
    /// It is no JSON text in UTF-8, or one that nests deeper than 127 or holds a number past the floats of 64 bits. The
    /// column is the one that serde_json tells.
    NotJson { column: usize },
    /// It is JSON, but no request: where the first value stands that is not of its form.
    NotRequest { pointer: Pointer },
    /// An edit of it changes a text that it cannot change: its place in the list, counted from 0, and why.
    NotChanged { place: usize, cause: ChangeFault },
    /// An edit of it passes a size: its place in the list, counted from 0, and the size.
    Refused { place: usize, cause: EditFault },
    /// It is longer than the longest line.
    TooLong,
    /// The allocator refused memory, or the mended text of a text would have more than 2^32 bytes.
    OutOfMemory,
}

impl From<AllocError> for LineError {
    ghost from_gives = { λ _ e. e ≡ OutOfMemory };

    fn from(_error: AllocError) -> LineError {
        LineError::OutOfMemory
    }
}

impl<T: Drop> From<AllocFailed<T>> for LineError {
    ghost from_gives = { λ _ e. e ≡ OutOfMemory };

    fn from(_failed: AllocFailed<T>) -> LineError {
        LineError::OutOfMemory
    }
}

impl From<EditError> for LineError {
    ghost from_gives = { λ error e. e ≡ edit_error error };

    fn from(error: EditError) -> LineError {
        match error {
            EditError::NotChanged { place, cause } => LineError::NotChanged { place, cause },
            EditError::Refused { place, cause } => LineError::Refused { place, cause },
            EditError::OutOfMemory => LineError::OutOfMemory,
        }
    }
}

impl From<Fault> for LineError {
    ghost from_gives = { λ fault e. e ≡ line_error fault };

    fn from(fault: Fault) -> LineError {
        match fault {
            Fault::WrongForm { pointer } => LineError::NotRequest { pointer },
            Fault::OutOfMemory => LineError::OutOfMemory,
        }
    }
}

// The size that an edit passes, in words.
fn cause_text(cause: EditFault) -> &'static str
    ensures { result.now ≡ cause_text cause }
{
    match cause {
        EditFault::TooManyEdits => "too many edits",
        EditFault::Lower(LowerError::TooManyItems) => "too many items",
        EditFault::Lower(LowerError::TooManyVisibilities) => "too many visibilities",
        EditFault::Lower(LowerError::TooManyUseTrees) => "too many use trees",
        EditFault::Lower(LowerError::TooManyAttributes) => "too many attributes",
        EditFault::Lower(LowerError::TooManySupers) => "too many supers",
        EditFault::Lower(LowerError::OutOfMemory) => "out of memory",
    }
}

// Why a text cannot be changed, in words.
fn fault_text(cause: ChangeFault) -> &'static str
    ensures { result.now ≡ fault_text cause }
{
    match cause {
        ChangeFault::NoText => "no text",
        ChangeFault::OutsideText { .. } => "range not in the text",
        ChangeFault::CutsCharacter => "range cuts a character",
        ChangeFault::TooLong => "text too long",
    }
}

// The object of an edit that changes no text. Of a range outside of the text it tells how many bytes that has.
fn unchanged_value(alloc: Global, place: usize, cause: ChangeFault) -> Result<Value, AllocError>
    ensures { IfOk result (λ value. view value ≡ unchanged_form place cause) }
{
    let words = fault_text(cause);
    match cause {
        ChangeFault::OutsideText { length } => {
            json!(in alloc; {"cause": words, "kind": "text not changed", "length": length, "place": place})
        }
        _ => json!(in alloc; {"cause": words, "kind": "text not changed", "place": place}),
    }
}

/// The object of an error, with a session open or not.
///
/// # Errors
///
/// Only if memory runs out.
pub(crate) fn error_value(
    alloc: Global,
    error: LineError,
    is_open: bool,
) -> Result<Value, AllocError>
    ensures { IfOk result (λ value. view value ≡ error_form is_open error) }
{
    match error {
        LineError::NotJson { column } => json!(in alloc; {"column": column, "kind": "not JSON"}),
        LineError::NotRequest { pointer } => {
            let pointer = pointer.text();
            let expected = expected_words(alloc, pointer, is_open)?;
            json!(in alloc; {"expected": expected, "kind": "not a request", "pointer": pointer})
        }
        LineError::NotChanged { place, cause } => unchanged_value(alloc, place, cause),
        LineError::Refused { place, cause } => {
            let cause = cause_text(cause);
            json!(in alloc; {"cause": cause, "kind": "edit refused", "place": place})
        }
        LineError::TooLong => json!(in alloc; {"kind": "line too long"}),
        LineError::OutOfMemory => json!(in alloc; {"kind": "out of memory"}),
    }
}
