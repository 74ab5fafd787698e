//! Texts that are changed in place, with what was read of them.
ghost use Rattle.std.specs.Prelude.{◌≡◌, ◌≢◌, ℕ, true, IfOk, IfSome, string_bytes};
ghost use Rattle.rust_items.specs.MemberLists.{is_cut};
ghost use Rattle.text_session.specs.Inside.{CanReplace, IsRetyped, IsRetypedIf};
ghost use Rattle.text_session.specs.Texts as spec;
ghost use Rattle.text_session.specs.Texts.{text_in};

use crate::splice::spliced_text;
use crate::texts::{SourceText, Texts};
use rust_edits::Shift;
use rust_items::TextRange;
use std::alloc::{AllocError, Global};

/// A text with what stands in a range of it replaced, if the text itself has no room for that.
#[tactic(auto, using(crate::proofs::BodyEdits::room_left, crate::proofs::BodyEdits::room_made))]
pub(crate) fn made_if_full(
    alloc: Global,
    text: &String,
    range: TextRange,
    typed: &str,
) -> Result<Option<String>, AllocError>
    requires { is_cut (string_bytes text.now) range ≡ true }
    ensures { IfOk result (CanReplace text.now range typed.now) }
{
    if typed.len() <= text.capacity().saturating_sub(text.len()) {
        return Ok(None);
    }
    let made = spliced_text(alloc, text, range, typed)?;
    Ok(Some(made))
}

// Replaces what stands in a range of a text.
#[tactic(auto, using(crate::proofs::BodyEdits::split_point))]
fn replace(text: &mut String, range: TextRange, typed: &str, made: Option<String>)
    requires { CanReplace text.old range typed.now made }
    ensures { string_bytes text.new ≡ spec.spliced_text (string_bytes text.old) range typed.now }
{
    match made {
        Some(made) => *text = made,
        None => {
            let _ = text.replace_range(range.start..range.end, typed);
        }
    }
}

impl SourceText {
    // Replaces what stands in a range of the text, and moves what was read of it; problems stay, since there are none.
    fn retype(&mut self, range: TextRange, typed: &str, made: Option<String>, shift: &Shift)
        requires { CanReplace self.old.text range typed.now made }
        ensures { IsRetyped range typed.now shift.now self.old self.new }
    {
        replace(&mut self.text, range, typed, made);
        shift.move_items(&mut self.places);
        shift.move_use_trees(&mut self.use_trees);
    }
}

// The same of a text that there may be.
fn retype_slot(
    slot: &mut Option<SourceText>,
    range: TextRange,
    typed: &str,
    made: Option<String>,
    shift: &Shift,
)
    requires { IfSome slot.old (λ text. CanReplace text.text range typed.now made) }
    ensures { IsRetypedIf range typed.now shift.now slot.old slot.new }
{
    if let Some(text) = slot {
        text.retype(range, typed, made, shift);
    }
}

/// Replaces what stands in a range of the text of a file, and moves what was read of it.
pub(crate) fn retype(
    texts: &mut Texts,
    file: u32,
    range: TextRange,
    typed: &str,
    made: Option<String>,
    shift: &Shift,
)
    requires { IfSome (text_in texts.old.entries file)
        (λ text. CanReplace text.text range typed.now made) }
    ensures here { IsRetypedIf range typed.now shift.now (text_in texts.old.entries file)
        (text_in texts.new.entries file) }
    ensures others { (f : ℕ) → f ≢ file
        → text_in texts.new.entries f ≡ text_in texts.old.entries f }
{
    if let Some(slot) = texts.get_mut(&file) {
        retype_slot(slot, range, typed, made, shift);
    }
}
