//! The text of a file, with what stands in a range of it replaced.
ghost use Rattle.std.specs.Prelude.{◌≡◌, ◌^◌, ◌+◌, ◌≤◌, true, nat_lt, IfOk, IfErr, Ok, length, option_copied};
ghost use Rattle.std.specs.Prelude.{string_bytes};
ghost use Rattle.rust_items.specs.MemberLists.{is_cut};
ghost use Rattle.text_session.specs.Inner.{TellsFault, IsWhyUnchanged};
ghost use Rattle.text_session.specs.Texts as spec;
ghost use Rattle.text_session.specs.Texts.{bytes_kept, change_fault, changed_text};

use crate::error::EditError;
use crate::texts::SourceText;
use rust_items::{TextRange, cut_out};
use std::alloc::{AllocError, Global};
use thiserror::Error;

/// As many bytes as a text may have: so many as the ids of items are distinct for.
pub const MOST_BYTES: usize = 0x1_0000_0000;

/// Why a file cannot have the text that an edit would leave.
#[derive(Clone, Copy, Debug, Error)]
pub enum ChangeFault {
    /// The file has no text that could be changed.
    #[error("no text")]
    NoText,
    /// The range ends before it begins, or past the text, which has so many bytes.
    #[error("range not in the text of {length} bytes")]
    OutsideText { length: usize },
    /// The range begins or ends inside a character.
    #[error("range cuts a character")]
    CutsCharacter,
    /// The text would have more than 2^32 bytes.
    #[error("text too long")]
    TooLong,
}

fn is_outside(text: &str, range: TextRange) -> bool
    ensures { result ≡ spec.is_outside text.now range }
{
    range.end < range.start || text.len() < range.end
}

#[tactic(auto, using(crate::proofs::SplicedTexts::cut_tells))]
fn cuts_none(text: &str, range: TextRange) -> bool
    ensures { result ≡ is_cut text.now range }
{
    cut_out(text, range).is_some()
}

// So many bytes and more are too many.
#[tactic(auto, using(std::proofs::lemmas::Bool::Decides::nat_tests))]
fn are_many(left: usize, more: usize) -> bool
    ensures { result ≡ nat_lt (2 ^ 32) (left + more) }
{
    if left > MOST_BYTES {
        return true;
    }
    more > MOST_BYTES - left
}

// The text would have too many bytes.
#[tactic(auto, using(crate::proofs::SplicedTexts::long_by))]
fn is_long(text: &str, range: TextRange, new: &str) -> bool
    requires order { range.start ≤ range.end }
    requires inside { range.end ≤ length text.now }
    ensures { result ≡ spec.is_long (spec.spliced_text text.now range new.now) }
{
    are_many(text.len() - (range.end - range.start), new.len())
}

/// Why a range of a text cannot be replaced by this, if it cannot.
#[tactic(auto, using(std::proofs::lemmas::Bool::Decides::nat_tests))]
pub(crate) fn fault(text: &str, range: TextRange, new: &str) -> Option<ChangeFault>
    ensures { result ≡ change_fault text.now range new.now }
{
    if is_outside(text, range) {
        let length = text.len();
        return Some(ChangeFault::OutsideText { length });
    }
    if !cuts_none(text, range) {
        return Some(ChangeFault::CutsCharacter);
    }
    if is_long(text, range, new) {
        return Some(ChangeFault::TooLong);
    }
    None
}

/// A text with what stands in a range of it replaced, in memory for more.
#[tactic(auto, using(crate::proofs::SplicedTexts::begins, crate::proofs::SplicedTexts::ends))]
pub(crate) fn spliced_text(
    alloc: Global,
    text: &str,
    range: TextRange,
    new: &str,
) -> Result<String, AllocError>
    requires { is_cut text.now range ≡ true }
    ensures { IfOk result (λ made. string_bytes made ≡ spec.spliced_text text.now range new.now) }
{
    let more = (text.len() / 8).saturating_add(new.len());
    let mut made = String::with_capacity(alloc, text.len().saturating_add(more))?;
    made.push_str(&text[..range.start])?;
    made.push_str(new)?;
    made.push_str(&text[range.end..])?;
    Ok(made)
}

/// The text of a file with what stands in a range of it replaced, for the edit at this place of a list.
///
/// `NotChanged` comes exactly where the range cannot be replaced, and the only other error is that memory runs out.
#[tactic(auto, using(crate::proofs::SplicedTexts::fault_none))]
pub(crate) fn changed_text(
    alloc: Global,
    text: Option<&SourceText>,
    range: TextRange,
    new: &str,
    place: usize,
) -> Result<String, EditError>
    ensures made { IfOk result
        (λ made. changed_text (bytes_kept (option_copied text.entry)) range new.now
        ≡ Ok (string_bytes made)) }
    ensures fails { IfErr result
        (TellsFault (IsWhyUnchanged
        (changed_text (bytes_kept (option_copied text.entry)) range new.now) place)) }
{
    let Some(text) = text else {
        let cause = ChangeFault::NoText;
        return Err(EditError::NotChanged { place, cause });
    };
    let old = text.text.as_str();
    if let Some(cause) = fault(old, range, new) {
        return Err(EditError::NotChanged { place, cause });
    }
    let made = spliced_text(alloc, old, range, new)?;
    Ok(made)
}
