//! Brackets.

ghost use Rattle.std.specs.Prelude.{◌≡◌, ◌&&◌, Bool, IfOk, List, map};
ghost use Rattle.rust_mended.specs.Texts.{matched_symbol};
ghost use Rattle.source_problems.specs.Brackets as spec;

use crate::problem::{SourceProblem, SourceProblemKind};
use rust_mended::{Bracket, Edit, EditKind, bracket_of, edits, is_same};
use std::alloc::{AllocError, Global};
use std::collections::VecDeque;

/// Takes a token of a symbol, and tells whether the brackets still match.
pub(crate) fn take_bracket(symbol: u8, opened: &mut VecDeque<Bracket>) -> Result<bool, AllocError>
    ensures { IfOk result (λ is. (rest : List Bracket → Bool)
        → (is && rest opened.new.items) ≡ matched_symbol symbol rest opened.old.items) }
{
    if matches!(symbol, b'{' | b'(' | b'[') {
        opened.push_front(bracket_of(symbol))?;
        return Ok(true);
    }
    if !matches!(symbol, b'}' | b')' | b']') {
        return Ok(true);
    }
    match opened.pop_front() {
        Some(last) => Ok(is_same(last, bracket_of(symbol))),
        None => Ok(false),
    }
}

fn mended_kind(kind: EditKind) -> SourceProblemKind
    ensures { result ≡ spec.mended_kind kind }
{
    match kind {
        EditKind::Put(_) => SourceProblemKind::Unclosed,
        EditKind::Leave => SourceProblemKind::Unmatched,
        EditKind::Turn(_) => SourceProblemKind::Mismatched,
    }
}

/// What an edit mends.
fn mended_problem(edit: Edit) -> SourceProblem
    ensures { result ≡ spec.mended_problem edit }
{
    SourceProblem {
        at: edit.told,
        kind: mended_kind(edit.kind),
    }
}

/// What these edits mend.
fn mended_problems(alloc: Global, edits: &[Edit]) -> Result<Vec<SourceProblem>, AllocError>
    ensures { IfOk result (λ v. v.items ≡ map spec.mended_problem edits.now) }
{
    let mut problems = Vec::with_capacity(alloc, edits.len())?;
    for edit in edits {
        problems.push(mended_problem(*edit))?;
    }
    Ok(problems)
}

/// What is wrong with the brackets of a text: what has to be mended in it.
pub(crate) fn bracket_problems(alloc: Global, text: &str) -> Result<Vec<SourceProblem>, AllocError>
    ensures { IfOk result (λ v. v.items ≡ spec.bracket_problems text.now) }
{
    let mending = edits(alloc, text)?;
    mended_problems(alloc, &mending)
}
