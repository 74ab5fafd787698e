//! Problems as lines of text, and as JSON values.
ghost use Rattle.std.specs.Prelude.{◌≡◌, IfOk, OnOk, ◌++◌, codes, map, string_bytes};
ghost use Rattle.list_forms.specs.Colors.{colored_text, faint_code, red_code};
ghost use Rattle.source_rows.specs.Sources.{place_text};
ghost use Rattle.serde_json.specs.View.{view};
ghost use Rattle.source_listing.specs.Lines as spec;
ghost use Rattle.source_listing.specs.Objects.{problem_at, problem_objects};
ghost use Rattle.source_listing.specs.Views.{source_view};

use hir_input_json::write::object::{of_text, with};
use line_index::{LineIndex, Position, Units};
use list_forms::{FAINT, RED, USUAL, push_color, push_colored};
use rust_items::Problem;
use serde_json::Value;
use source_problems::{SourceProblem, SourceProblemKind};
use source_rows::{Source, push_place};
use std::alloc::{AllocError, Global};

/// What is wrong, in words.
pub fn problem_message(kind: SourceProblemKind) -> &'static str
    ensures { result.now ≡ spec.message kind }
{
    match kind {
        SourceProblemKind::NoItem => "expected an item",
        SourceProblemKind::Unmatched => "this bracket closes nothing",
        SourceProblemKind::Unfinished => "this item has no end",
        SourceProblemKind::Nameless => "this item has no name",
        SourceProblemKind::Unterminated => "this literal or comment has no end",
        SourceProblemKind::TooDeep => "this stands in too many others to be read",
        SourceProblemKind::Mismatched => "this bracket closes one of another kind",
        SourceProblemKind::Unclosed => "nothing closes this bracket",
        SourceProblemKind::AttributePath => "an attribute here has no path that can be read",
        SourceProblemKind::DeepAttribute => "an attribute here is nested too deep to be read",
        SourceProblemKind::VisibilityPath => "the path of a visibility here cannot be read",
        SourceProblemKind::UsePath => "a path of this use cannot be read",
        SourceProblemKind::MacroPath => "the path of this macro call cannot be read",
        SourceProblemKind::ConflictMarker => "a merge left this conflict marker",
    }
}

/// The line of a problem.
#[tactic(auto, unfolding(list_forms::specs::Colors::colored_text))]
fn push_line(
    is_colored: bool,
    path: &str,
    position: Position,
    kind: SourceProblemKind,
    out: &mut String,
) -> Result<(), AllocError>
    ensures { let place = colored_text is_colored faint_code (place_text path.now position) in
        let message = colored_text is_colored red_code (spec.message kind) in
        OnOk result (string_bytes out.new ≡ string_bytes out.old ++ place ++ message ++ codes "\n") }
{
    push_color(is_colored, FAINT, out)?;
    push_place(path, position, out)?;
    push_color(is_colored, USUAL, out)?;
    push_colored(is_colored, RED, problem_message(kind), out)?;
    out.push_str("\n")
}

/// A line for each problem of a text: file, line and column, and what is wrong, in colours or not.
///
/// # Errors
///
/// Only if memory runs out.
pub fn problem_lines(
    alloc: Global,
    source: Source<'_>,
    problems: &[SourceProblem],
    is_colored: bool,
) -> Result<String, AllocError>
    ensures { IfOk result (λ text. string_bytes text
        ≡ spec.problem_lines is_colored (source_view source.entry) problems.now) }
{
    let mut out = String::new(alloc);
    let mut lines = LineIndex::new(source.text);
    for problem in problems {
        let position = lines.position(problem.at);
        push_line(is_colored, source.path, position, problem.kind, &mut out)?;
    }
    Ok(out)
}

/// The object of a problem.
fn problem_value(
    alloc: Global,
    position: Position,
    kind: SourceProblemKind,
) -> Result<Value, AllocError>
    ensures { IfOk result (λ value. view value ≡ problem_at position kind) }
{
    let members = of_text(alloc, "message", problem_message(kind))?;
    let members = with(alloc, members, "line", Value::from(position.line))?;
    Ok(Value::Object(with(alloc, members, "column", Value::from(position.column))?))
}

/// What the reader of items tells of a text as values, each an object with the `line` and the `column` at which it
/// stands, and a `message` that says what is wrong. Columns count these units.
///
/// # Errors
///
/// Only if memory runs out.
pub fn problem_items(
    alloc: Global,
    text: &str,
    problems: &[Problem],
    units: Units,
) -> Result<Vec<Value>, AllocError>
    ensures { IfOk result (λ items. map view items.items
        ≡ problem_objects units text.now problems.now) }
{
    let mut items = Vec::new(alloc);
    let mut lines = LineIndex::new(text);
    for problem in problems {
        let position = lines.position_in(units, problem.at);
        let kind = SourceProblemKind::from(problem.kind);
        items.push(problem_value(alloc, position, kind)?)?;
    }
    Ok(items)
}
