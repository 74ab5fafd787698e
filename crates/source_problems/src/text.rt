//! All that is wrong with a text.

ghost use Rattle.std.specs.Prelude.{◌≡◌, [], ◌++◌, IfOk, OnOk, map};
ghost use Rattle.rust_items.specs.LineEnds.{place_by};
ghost use Rattle.rust_items.specs.SourceFiles.{file_view};
ghost use Rattle.rust_lexer.specs.Tokens.{tokens};
ghost use Rattle.rust_mended.specs.Texts.{tokens_match};
ghost use Rattle.source_problems.specs.Brackets as brackets;
ghost use Rattle.source_problems.specs.Problems as found;
ghost use Rattle.source_problems.specs.Quotes as quotes;
ghost use Rattle.source_problems.specs.Texts as spec;

use crate::brackets::bracket_problems;
use crate::items::push_syntax;
use crate::problem::{Found, SourceProblem, told_problem};
use crate::quotes::{Lines, read_lines};
use rust_items::line_ends::{LineEnds, has_return, with_feeds};
use rust_items::{Problem, SourceFile};
use std::alloc::{AllocError, Global};
use std::collections::BTreeSet;

/// Problems of a text with line feeds alone, at the places of the text as it is.
fn moved_problems(
    alloc: Global,
    problems: &[SourceProblem],
    ends: &LineEnds,
) -> Result<Vec<SourceProblem>, AllocError>
    ensures { IfOk result (λ v. v.items
        ≡ map (spec.problem_moved_by (place_by ends.now.len ends.now.returns.items)) problems.now) }
{
    let mut moved = Vec::with_capacity(alloc, problems.len())?;
    for problem in problems {
        moved.push(SourceProblem {
            at: ends.place(problem.at),
            kind: problem.kind,
        })?;
    }
    Ok(moved)
}

/// What is wrong with the quotes and the lines of a text with line feeds alone, at the places of the text as it is.
fn placed_lines(alloc: Global, feeds: &str, ends: &LineEnds) -> Result<Lines, AllocError>
    ensures problems { let place = place_by ends.now.len ends.now.returns.items in
        let problems = map (spec.problem_moved_by place) (quotes.token_problems (tokens feeds.now)) in
        IfOk result (λ l. l.problems.items ≡ problems) }
    ensures matched { IfOk result (λ l. l.is_matched ≡ tokens_match (tokens feeds.now) []) }
{
    let lines = read_lines(alloc, feeds)?;
    Ok(Lines {
        problems: moved_problems(alloc, &lines.problems, ends)?,
        is_matched: lines.is_matched,
    })
}

/// What is wrong with the brackets of a text, and behind it what is wrong with its lines.
fn with_brackets(
    alloc: Global,
    text: &str,
    mut lines: Vec<SourceProblem>,
) -> Result<Vec<SourceProblem>, AllocError>
    ensures { IfOk result (λ v. v.items ≡ brackets.bracket_problems text.now ++ lines.items) }
{
    let mut problems = bracket_problems(alloc, text)?;
    problems.append(&mut lines)?;
    Ok(problems)
}

/// What is wrong with the brackets, the quotes and the lines of a text.
#[tactic(auto, using(crate::proofs::Feeds::same_problems, crate::proofs::Feeds::none_told))]
fn line_problems(alloc: Global, text: &str) -> Result<Vec<SourceProblem>, AllocError>
    ensures { IfOk result (λ v. v.items
        ≡ brackets.bracket_problems text.now ++ spec.quote_problems text.now) }
{
    if !has_return(text) {
        let ends = LineEnds::none(alloc, text);
        let lines = placed_lines(alloc, text, &ends)?;
        if lines.is_matched {
            return Ok(lines.problems);
        }
        return with_brackets(alloc, text, lines.problems);
    }
    let (feeds, ends) = with_feeds(alloc, text)?;
    let lines = placed_lines(alloc, &feeds, &ends)?;
    with_brackets(alloc, text, lines.problems)
}

/// Adds what the reader of items tells.
fn push_told(read: &[Problem], problems: &mut Vec<SourceProblem>) -> Result<(), AllocError>
    ensures { OnOk result (problems.new.items ≡ problems.old.items ++ map found.told_problem read.now) }
{
    for problem in read {
        problems.push(told_problem(*problem))?;
    }
    Ok(())
}

/// The problems that are known, in order.
fn problem_list(
    alloc: Global,
    known: &BTreeSet<SourceProblem>,
) -> Result<Vec<SourceProblem>, AllocError>
    ensures listed { IfOk result (λ v. v.items ≡ known.now.keys) }
    ensures ordered { IfOk result (λ v. spec.AreInOrder v.items) }
{
    let mut ordered = Vec::with_capacity(alloc, known.len())?;
    for problem in known {
        ordered.push(*problem)?;
    }
    Ok(ordered)
}

/// The problems in order, each once.
fn in_order(alloc: Global, problems: &[SourceProblem]) -> Result<Vec<SourceProblem>, AllocError>
    ensures all { IfOk result (λ v. v.items ≡ spec.in_order problems.now) }
    ensures ordered { IfOk result (λ v. spec.AreInOrder v.items) }
{
    let mut known = BTreeSet::new(alloc);
    for problem in problems {
        known.insert(*problem)?;
    }
    problem_list(alloc, &known)
}

/// All that is wrong with a text of which this was read, in the order of places, each once: what the reader of items
/// tells; brackets that have to be mended, each where its line tells that it is wrong; literals and comments without
/// their ends, also those behind which the text goes on; conflict markers at the beginning of lines, but none in the
/// token tree of a macro call or an attribute where all brackets match; and the paths without a meaning and the
/// attributes that are too deep, at the items that have them, or at the beginning of the file.
///
/// Nothing is wrong with the texts of bodies, nor with documentation: what was read may be without both.
///
/// # Errors
///
/// Only if memory runs out.
pub fn source_problems(
    alloc: Global,
    text: &str,
    file: &SourceFile,
) -> Result<Vec<SourceProblem>, AllocError>
    ensures all { IfOk result (λ v. v.items ≡ spec.source_problems text.now (file_view file.now)) }
    ensures ordered { IfOk result (λ v. spec.AreInOrder v.items) }
{
    let mut problems = line_problems(alloc, text)?;
    push_told(&file.problems, &mut problems)?;
    let mut found = Found { at: 0, problems };
    push_syntax(&file.syntax, &file.places, &mut found)?;
    in_order(alloc, &found.problems)
}
