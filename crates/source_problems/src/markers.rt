//! Conflict markers.

ghost use Rattle.std.specs.Prelude.{◌≡◌, ◌++◌, OnOk, Some, None, if◌then◌else◌};
ghost use Rattle.source_problems.specs.Markers as spec;
ghost use Rattle.source_problems.specs.Quotes.{marker_outside};

use crate::macro_trees::Around;
use crate::problem::{SourceProblem, SourceProblemKind, push};
use rust_cursor::{first_byte, last_byte};
use rust_lexer::{Lexer, Token};
use std::alloc::AllocError;

/// Takes a mark of a symbol, if it comes first.
fn pass_mark(symbol: u8, lexer: &mut Lexer<'_>) -> bool
    ensures { spec.behind_first_mark symbol lexer.old ≡ (if result then Some lexer.new else None) }
{
    match lexer.next() {
        Some(token) => token.symbol() == symbol,
        None => false,
    }
}

/// Takes the seven of them that a marker is made of, if they come first.
#[tactic(auto, using(crate::proofs::Marks::mark_passed, crate::proofs::Marks::mark_missed))]
fn pass_marks(symbol: u8, lexer: &mut Lexer<'_>) -> bool
    ensures { spec.behind_marks 7 symbol lexer.old ≡ (if result then Some lexer.new else None) }
{
    for _mark in 0..7usize {
        if !pass_mark(symbol, lexer) {
            return false;
        }
    }
    true
}

/// Whether a marker of this symbol ends here.
fn ends_marker(symbol: u8, behind: &Lexer<'_>) -> bool
    ensures { result ≡ spec.ends_marker symbol behind.now }
{
    match behind.copy().next() {
        Some(token) => match first_byte(token.text()) {
            b' ' => true,
            b'\n' => symbol == b'=',
            _ => false,
        },
        None => symbol == b'=',
    }
}

/// Whether a marker of this symbol comes next.
fn is_marker(symbol: u8, lexer: &Lexer<'_>) -> bool
    ensures { result ≡ spec.is_marker symbol lexer.now }
{
    if !matches!(symbol, b'<' | b'=' | b'>') {
        return false;
    }
    let mut behind = lexer.copy();
    pass_marks(symbol, &mut behind) && ends_marker(symbol, &behind)
}

/// Adds a problem where a marker comes next, at the beginning of a line.
pub(crate) fn push_marker(
    lexer: &Lexer<'_>,
    problems: &mut Vec<SourceProblem>,
) -> Result<(), AllocError>
    ensures { OnOk result (problems.new.items ≡ problems.old.items ++ spec.marker_problems lexer.now) }
{
    let Some(token) = lexer.copy().next() else {
        return Ok(());
    };
    if is_marker(token.symbol(), lexer) {
        return push(problems, token.at(), SourceProblemKind::ConflictMarker);
    }
    Ok(())
}

/// The same behind a token, where a line begins there, and unless markers in token trees of macros are left out and it
/// stands in one.
pub(crate) fn push_marker_outside(
    skips: bool,
    around: Around,
    token: &Token<'_>,
    lexer: &Lexer<'_>,
    problems: &mut Vec<SourceProblem>,
) -> Result<(), AllocError>
    ensures { let marker = marker_outside skips around token.now lexer.now in
        OnOk result (problems.new.items ≡ problems.old.items ++ marker) }
{
    if skips && !around.is_outside() {
        return Ok(());
    }
    if last_byte(token.text()) == b'\n' {
        return push_marker(lexer, problems);
    }
    Ok(())
}
