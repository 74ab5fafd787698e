//! Edits inside bodies.

ghost use Rattle.std.specs.Prelude.{◌≡◌, ◌↔◌, true, IsSome, IfOk, IfSome, length, slice_index};
ghost use Rattle.rust_items.specs.Typed.{has_body_at};
ghost use Rattle.rust_edits.specs.Edits as spec;
ghost use Rattle.rust_edits.specs.Edits.{BeginInOrder, MayEdit, PlacesAreKept, ReadsMoved, Shifts};
ghost use Rattle.rust_edits.specs.Edits.{ShiftsBraces, TellsLoose};
ghost use Rattle.rust_edits.specs.Inner as inner;

use crate::alone::loose_if_alone;
use crate::parts::parts_of;
use crate::shift::Shift;
use rust_items::{ItemPlace, TextRange};
use std::alloc::{AllocError, Global};

/// An edit inside a body, by what it leaves of what was read of the text.
#[derive(Clone, Copy, Debug, PartialEq, Eq)]
pub struct BodyEdit {
    /// How places move with it.
    pub shift: Shift,
    /// Whether the problems are the same, and move with the text too. They are if, of the brackets `(` and `[` in the
    /// body, as many close nothing and as many stay open as before; else the new text has to be read for its problems.
    pub keeps_problems: bool,
}

/// The braces of the last item that begins up to a place, if it ends with braces.
fn body_about(items: &[ItemPlace], at: usize) -> Option<TextRange>
    ensures held { IfSome result (λ body. has_body_at body.start items.now ≡ true) }
    ensures told { BeginInOrder items.now → result ≡ spec.body_about at items.now }
{
    let count = items.partition_point(|item| item.range.start <= at);
    let item = items.get(count.checked_sub(1)?)?;
    item.body
}

/// The byte at a place, or 0 past the end.
fn byte(text: &str, at: usize) -> u8
    ensures { result ≡ slice_index text.now at }
{
    let bytes = text.as_bytes();
    if at < bytes.len() { bytes[at] } else { 0 }
}

/// Whether a text clearly begins with neither a byte order mark, a shebang line nor frontmatter.
fn begins_bare(text: &str) -> bool
    ensures { result ≡ spec.begins_bare text.now }
{
    match byte(text, 0) {
        b'#' => byte(text, 1) == b'[' || byte(text, 1) == b'!' && byte(text, 2) == b'[',
        b'-' | b'\n' | b'\r' | 0xEF => false,
        _ => true,
    }
}

fn shift_of(body: TextRange, range: TextRange, typed: &str, back: &str) -> Option<Shift>
    ensures value { IfSome result
        (λ shift. inner.IsShift body range (length typed.now) (length back.now) shift) }
    ensures told { IsSome result ↔ inner.EndsFit range (length typed.now) (length back.now) }
{
    let closing = range.end.checked_add(back.len())?;
    let typed_end = range.start.checked_add(typed.len())?;
    let closing_new = typed_end.checked_add(back.len())?;
    Some(Shift {
        opening: body.start,
        closing,
        closing_new,
    })
}

/// What an edit that replaces a range of a text leaves of what was read of the text, if it is one inside a body; `None`
/// says that the new text is to be read.
///
/// It is told where the items of the old text stand, the old text, the range in bytes, and what was typed in its place.
/// If it answers, then what is read of the new text is the same but for body texts, with the same ids, and items and
/// use trees stand where the answer says; so do the problems, if it says that they are kept. It takes as long as the
/// body is long, and a search among the items.
///
/// It says `None` if the range is not in the braces of a body or cuts a character, if what stood or stands between
/// these does not stand alone (its braces match, no token of it takes the `}`, and no inner attribute begins it), and
/// of a text that begins with the byte 0xEF, as a byte order mark does, with `-`, with an end of a line, or with a `#`
/// that neither `[` nor `![` follows at once. Else it answers, if the items are in the order in which they begin; those
/// that are read of a text are.
///
/// # Errors
///
/// Only if memory runs out.
pub fn edit_inside(
    alloc: Global,
    items: &[ItemPlace],
    old: &str,
    range: TextRange,
    typed: &str,
) -> Result<Option<BodyEdit>, AllocError>
    ensures shifts { IfOk result
        (λ found. IfSome found (Shifts items.now old.now range typed.now)) }
    ensures reads { IfOk result
        (λ found. IfSome found (ReadsMoved items.now old.now range typed.now)) }
    ensures keeps { IfOk result (λ found. IfSome found
        (λ edit. PlacesAreKept items.now old.now range typed.now edit.shift)) }
    ensures told { BeginInOrder items.now
        → IfOk result (λ it. IsSome it ↔ MayEdit items.now old.now range typed.now) }
    ensures loose { BeginInOrder items.now → IfOk result (λ it. IfSome it
        (λ edit. TellsLoose items.now old.now range typed.now edit.keeps_problems)) }
    ensures braces { BeginInOrder items.now → IfOk result (λ it. IfSome it
        (λ edit. ShiftsBraces items.now old.now range typed.now edit.shift)) }
{
    if !begins_bare(old) {
        return Ok(None);
    }
    let Some(body) = body_about(items, range.start) else {
        return Ok(None);
    };
    let Some(parts) = parts_of(old, body, range) else {
        return Ok(None);
    };
    let Some(stood) = loose_if_alone(alloc, parts.front, parts.replaced, parts.back)? else {
        return Ok(None);
    };
    let Some(stands) = loose_if_alone(alloc, parts.front, typed, parts.back)? else {
        return Ok(None);
    };
    let Some(shift) = shift_of(body, range, typed, parts.back) else {
        return Ok(None);
    };
    Ok(Some(BodyEdit {
        shift,
        keeps_problems: stood.is_same(stands),
    }))
}
