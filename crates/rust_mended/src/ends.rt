//! The ends of brackets.

ghost use Rattle.std.specs.Prelude.{◌≡◌, ◌++◌, [], ◌∷◌, OnOk, flat_map};
ghost use Rattle.rust_mended.specs.Mended as spec;
ghost use Rattle.rust_mended.specs.Texts as texts;
ghost use Rattle.rust_mended.specs.Steps as steps;

use crate::bracket::{Bracket, is_brace, is_same};
use crate::edit::{Edit, EditKind};
use crate::mark::{Mark, MarkKind, Opened};
use crate::reached::Marked;
use std::alloc::AllocError;
use std::collections::VecDeque;

/// The edit that puts the closer of a bracket at a place.
fn put(at: usize, last: Opened) -> Edit
    ensures { texts.mending_edit (spec.put at last) ≡ result ∷ [] }
{
    Edit {
        at,
        told: last.at,
        kind: EditKind::Put(last.bracket),
    }
}

/// Leaves out a closer.
fn leave(mark: Mark, edits: &mut Vec<Edit>) -> Result<(), AllocError>
    ensures { OnOk result (edits.new.items ≡ edits.old.items ++ texts.mending_edit (spec.left mark)) }
{
    edits.push(Edit {
        at: mark.at,
        told: mark.at,
        kind: EditKind::Leave,
    })?;
    Ok(())
}

/// Whether a mark is the closer of such a bracket.
fn closes(bracket: Bracket, kind: MarkKind) -> bool
    ensures { result ≡ spec.is_closer_of bracket kind }
{
    match kind {
        MarkKind::Close(closer) => is_same(bracket, closer),
        MarkKind::Open(_) | MarkKind::Item => false,
    }
}

/// Closes a bracket by a closer, which is turned if it is of another kind.
fn turn(mark: Mark, bracket: Bracket, edits: &mut Vec<Edit>) -> Result<(), AllocError>
    ensures { OnOk result (edits.new.items ≡ edits.old.items ++ texts.mending_edit (spec.closed mark bracket)) }
{
    if closes(bracket, mark.kind) {
        return Ok(());
    }
    edits.push(Edit {
        at: mark.at,
        told: mark.at,
        kind: EditKind::Turn(bracket),
    })?;
    Ok(())
}

/// Ends before an item what nothing closes and is no further out.
fn end_before(
    mark: Mark,
    opened: &mut VecDeque<Opened>,
    edits: &mut Vec<Edit>,
) -> Result<(), AllocError>
    ensures { OnOk result (steps.AddsEdits (steps.end_before_step mark opened.old.items)
        edits.old.items edits.new.items opened.new.items) }
{
    'opened: while let Some(last) = opened.pop_front() {
        if last.is_closed || mark.indent > last.indent {
            opened.push_front(last)?;
            return Ok(());
        }
        edits.push(put(mark.behind, last))?;
    }
    Ok(())
}

/// Closes the last bracket that is closed, and ends what was opened behind it.
fn close_own(
    mark: Mark,
    opened: &mut VecDeque<Opened>,
    edits: &mut Vec<Edit>,
) -> Result<(), AllocError>
    ensures { OnOk result (steps.AddsEdits (steps.close_own_step mark opened.old.items)
        edits.old.items edits.new.items opened.new.items) }
{
    'opened: while let Some(last) = opened.pop_front() {
        if last.is_closed {
            return turn(mark, last.bracket, edits);
        }
        edits.push(put(mark.behind, last))?;
    }
    leave(mark, edits)
}

/// Whether a `}` may close a bracket that nothing else closes.
fn fits(mark: Mark, last: Opened) -> bool
    ensures { result ≡ spec.fits_closer mark last }
{
    is_brace(last.bracket) && mark.begins_line && last.indent <= mark.indent
}

/// Closes by a `}` the last brace that it may close, and ends what was opened behind that, or leaves it out.
fn close_far(
    mark: Mark,
    opened: &mut VecDeque<Opened>,
    edits: &mut Vec<Edit>,
) -> Result<(), AllocError>
    ensures { OnOk result (steps.AddsEdits (steps.close_far_step mark opened.old.items)
        edits.old.items edits.new.items opened.new.items) }
{
    'opened: while let Some(last) = opened.pop_front() {
        if last.is_closed {
            opened.push_front(last)?;
            return leave(mark, edits);
        }
        if fits(mark, last) {
            return turn(mark, last.bracket, edits);
        }
        edits.push(put(mark.behind, last))?;
    }
    leave(mark, edits)
}

/// What closes the last of these brackets that is closed.
fn owed_closer(opened: &VecDeque<Opened>) -> Option<usize>
    ensures { result ≡ spec.owed_closer opened.now.items }
{
    opened.front()?.owed
}

/// Whether a mark stands there.
fn is_at(mark: Mark, owed: Option<usize>) -> bool
    ensures { result ≡ spec.is_owed mark owed }
{
    match owed {
        Some(at) => at == mark.at,
        None => false,
    }
}

/// Takes a closer.
fn close(
    bracket: Bracket,
    mark: Mark,
    opened: &mut VecDeque<Opened>,
    edits: &mut Vec<Edit>,
) -> Result<(), AllocError>
    ensures { OnOk result (steps.AddsEdits (steps.close_step bracket mark opened.old.items)
        edits.old.items edits.new.items opened.new.items) }
{
    if is_at(mark, owed_closer(opened)) {
        return close_own(mark, opened, edits);
    }
    if is_brace(bracket) {
        return close_far(mark, opened, edits);
    }
    leave(mark, edits)
}

/// Whether a brace directly in such a bracket does not keep what closes it.
fn is_lost(mark: Mark, last: Opened, closer: Option<Mark>) -> bool
    ensures { result ≡ spec.is_lost mark last closer }
{
    match closer {
        Some(closer) => {
            !last.is_closed
                && closer.begins_line
                && closer.indent < mark.indent
                && closer.indent <= last.indent
        }
        None => false,
    }
}

/// What closes a bracket and is kept.
fn keeps(bracket: Bracket, marked: Marked, opened: &VecDeque<Opened>) -> Option<Mark>
    ensures { result ≡ spec.keeps bracket marked.mark opened.now.items marked.closer }
{
    let Some(last) = opened.front() else {
        return marked.closer;
    };
    if is_brace(bracket) && is_lost(marked.mark, *last, marked.closer) {
        return None;
    }
    marked.closer
}

/// A bracket that is opened behind these.
fn opened_by(
    bracket: Bracket,
    mark: Mark,
    closer: Option<Mark>,
    opened: &VecDeque<Opened>,
) -> Opened
    ensures { result ≡ spec.opened_by bracket mark closer opened.now.items }
{
    match closer {
        Some(closer) => Opened {
            bracket,
            at: mark.at,
            indent: mark.indent,
            is_closed: true,
            owed: Some(closer.at),
        },
        None => Opened {
            bracket,
            at: mark.at,
            indent: mark.indent,
            is_closed: false,
            owed: owed_closer(opened),
        },
    }
}

/// Takes a mark.
pub(crate) fn take(
    marked: Marked,
    opened: &mut VecDeque<Opened>,
    edits: &mut Vec<Edit>,
) -> Result<(), AllocError>
    ensures { OnOk result (steps.AddsEdits (steps.taken_step marked.mark.kind marked.mark marked.closer
        opened.old.items)
        edits.old.items edits.new.items opened.new.items) }
{
    match marked.mark.kind {
        MarkKind::Open(bracket) => {
            let closer = keeps(bracket, marked, opened);
            let last = opened_by(bracket, marked.mark, closer, opened);
            opened.push_front(last)?;
            Ok(())
        }
        MarkKind::Close(bracket) => close(bracket, marked.mark, opened, edits),
        MarkKind::Item => end_before(marked.mark, opened, edits),
    }
}

/// Ends all that is open.
pub(crate) fn end_all(
    at: usize,
    mut opened: VecDeque<Opened>,
    edits: &mut Vec<Edit>,
) -> Result<(), AllocError>
    ensures { OnOk result (edits.new.items ≡ edits.old.items ++ flat_map texts.mending_edit
        (spec.all_ended at opened.items)) }
{
    'opened: while let Some(last) = opened.pop_front() {
        edits.push(put(at, last))?;
    }
    Ok(())
}
