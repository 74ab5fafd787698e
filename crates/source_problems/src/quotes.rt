//! Quotes and conflict markers.

ghost use Rattle.std.specs.Prelude.{◌≡◌, [], ◌++◌, IfOk, OnOk};
ghost use Rattle.rust_lexer.specs.Tokens.{tokens};
ghost use Rattle.rust_mended.specs.Texts.{tokens_match};
ghost use Rattle.source_problems.specs.Quotes as spec;

use crate::brackets::take_bracket;
use crate::macro_trees::Around;
use crate::markers::{push_marker, push_marker_outside};
use crate::problem::{SourceProblem, SourceProblemKind, push};
use rust_lexer::{Lexer, Token};
use std::alloc::{AllocError, Global};
use std::collections::VecDeque;

/// Adds a problem where a token is not ended.
fn push_unended(token: &Token<'_>, problems: &mut Vec<SourceProblem>) -> Result<(), AllocError>
    ensures { OnOk result (problems.new.items ≡ problems.old.items ++ spec.unended_problems token.now) }
{
    if token.is_terminated() {
        return Ok(());
    }
    push(problems, token.at(), SourceProblemKind::Unterminated)
}

/// What a walk over the tokens of a text finds.
#[derive(Drop)]
pub(crate) struct Lines {
    /// What is wrong with quotes, and conflict markers.
    pub problems: Vec<SourceProblem>,
    /// Whether all brackets match.
    pub is_matched: bool,
}

/// What is wrong with the quotes of a text, its conflict markers, with or without those in token trees of macros, and
/// whether its brackets match.
fn lines_of(alloc: Global, text: &str, skips: bool) -> Result<Lines, AllocError>
    ensures problems { IfOk result (λ l. l.problems.items ≡ spec.problems_in skips (tokens text.now)) }
    ensures matched { IfOk result (λ l. l.is_matched ≡ tokens_match (tokens text.now) []) }
{
    let mut problems = Vec::new(alloc);
    let mut opened = VecDeque::new(alloc);
    let mut is_matched = true;
    let mut around = Around::outside();
    let mut lexer = Lexer::new(text);
    push_marker(&lexer, &mut problems)?;
    'tokens: while let Some(token) = lexer.next() {
        around = around.behind(&token);
        push_unended(&token, &mut problems)?;
        push_marker_outside(skips, around, &token, &lexer, &mut problems)?;
        is_matched = is_matched && take_bracket(token.symbol(), &mut opened)?;
    }
    Ok(Lines {
        problems,
        is_matched: is_matched && opened.is_empty(),
    })
}

/// What is wrong with the quotes of a text, its conflict markers, and whether its brackets match. Where they do,
/// markers in token trees of macros are none.
pub(crate) fn read_lines(alloc: Global, text: &str) -> Result<Lines, AllocError>
    ensures problems { IfOk result (λ l. l.problems.items ≡ spec.token_problems (tokens text.now)) }
    ensures matched { IfOk result (λ l. l.is_matched ≡ tokens_match (tokens text.now) []) }
{
    let lines = lines_of(alloc, text, true)?;
    if lines.is_matched {
        return Ok(lines);
    }
    lines_of(alloc, text, false)
}
