//! What closes a bracket, found from the end of the marks on.

ghost use Rattle.std.specs.Prelude.{◌≡◌, IfOk, OnOk};
ghost use Rattle.rust_mended.specs.Mended as spec;
ghost use Rattle.rust_mended.specs.Steps as steps;

use crate::bracket::{Bracket, is_brace};
use crate::mark::{Mark, MarkKind};
use std::alloc::{AllocError, Global};
use std::collections::VecDeque;

/// A mark, and what closes it if it is a bracket.
#[derive(Clone, Copy, Debug)]
pub(crate) struct Marked {
    pub mark: Mark,
    pub closer: Option<Mark>,
}

/// Whether it is a `}`.
fn closes_brace(kind: MarkKind) -> bool
    ensures { result ≡ spec.closes_brace kind }
{
    match kind {
        MarkKind::Close(bracket) => is_brace(bracket),
        MarkKind::Open(_) | MarkKind::Item => false,
    }
}

/// Takes the first brace, and what is before it.
fn take_brace(reaching: &mut VecDeque<Mark>) -> Option<Mark>
    ensures first { result ≡ spec.first_brace reaching.old.items }
    ensures behind { reaching.new.items ≡ spec.closers_behind_brace reaching.old.items }
{
    'closers: while let Some(closer) = reaching.pop_front() {
        if closes_brace(closer.kind) {
            return Some(closer);
        }
    }
    None
}

/// Takes the first closer, if that is no brace.
fn take_other(reaching: &mut VecDeque<Mark>) -> Option<Mark>
    ensures first { result ≡ spec.first_other reaching.old.items }
    ensures behind { reaching.new.items ≡ spec.closers_behind_other reaching.old.items }
{
    let first = *reaching.front()?;
    if closes_brace(first.kind) {
        return None;
    }
    reaching.pop_front();
    Some(first)
}

/// Takes what closes a mark of the closers behind it, or adds it to these.
fn reach(mark: Mark, reaching: &mut VecDeque<Mark>) -> Result<Option<Mark>, AllocError>
    ensures closer { IfOk result (λ closer. closer ≡ spec.closer_by mark.kind reaching.old.items) }
    ensures reached { OnOk result (reaching.new.items ≡ spec.closers_reached mark.kind mark reaching.old.items) }
{
    match mark.kind {
        MarkKind::Open(bracket) => {
            if is_brace(bracket) {
                return Ok(take_brace(reaching));
            }
            Ok(take_other(reaching))
        }
        MarkKind::Close(_) => {
            reaching.push_front(mark)?;
            Ok(None)
        }
        MarkKind::Item => Ok(None),
    }
}

/// The marks, each with what closes it.
#[tactic(auto, using(crate::proofs::MarkSteps::reach_append))]
pub(crate) fn with_closers(alloc: Global, marks: &[Mark]) -> Result<VecDeque<Marked>, AllocError>
    ensures { IfOk result (λ v. v.items ≡ steps.marked_list marks.now) }
{
    let mut marked = VecDeque::new(alloc);
    let mut reaching = VecDeque::new(alloc);
    let mut rest = marks;
    'marks: while let Some((mark, before)) = rest.split_last() {
        let closer = reach(*mark, &mut reaching)?;
        marked.push_front(Marked {
            mark: *mark,
            closer,
        })?;
        rest = before;
    }
    Ok(marked)
}
