//! What of an item or a member belongs to a position.
ghost use Rattle.std.specs.Prelude.{◌≡◌, ◌++◌, IfOk, OnOk, flat_map, map};
ghost use Rattle.serde_json.specs.View.{view};
ghost use Rattle.lsp.specs.Highlight as spec;
ghost use Rattle.lsp.specs.Inner.{marks_of};

use crate::parts::{Page, Part, is_around, range_value};
use line_index::Point;
use rust_paths::TextRange;
use serde_json::Value;
use std::alloc::{AllocError, Global};

fn first_byte(range: TextRange) -> TextRange
    ensures { result ≡ spec.first_byte range }
{
    TextRange {
        start: range.start,
        end: range.start.saturating_add(1).min(range.end),
    }
}

fn last_byte(range: TextRange) -> TextRange
    ensures { result ≡ spec.last_byte range }
{
    TextRange {
        start: range.end.saturating_sub(1),
        end: range.end,
    }
}

/// The name of a part and its two braces, those that it has.
fn marks(part: Part) -> [Option<TextRange>; 3]
    ensures { result ≡ spec.highlight_ranges part }
{
    let body = part.body;
    [part.name, body.map(first_byte), body.map(last_byte)]
}

fn is_marked(at: usize, marks: &[Option<TextRange>]) -> bool
    ensures { result ≡ spec.is_highlighted at marks.now }
{
    for mark in marks {
        if let Some(range) = mark
            && is_around(at, *range)
        {
            return true;
        }
    }
    false
}

/// The first part that has a mark at a byte.
fn part_at(at: usize, parts: &[Part]) -> Option<Part>
    ensures { marks_of result ≡ spec.marks_at at parts.now }
{
    for part in parts {
        if is_marked(at, &marks(*part)) {
            return Some(*part);
        }
    }
    None
}

fn push_mark(
    alloc: Global,
    page: Page<'_>,
    mark: Option<TextRange>,
    values: &mut Vec<Value>,
) -> Result<(), AllocError>
    ensures { let p = page.entry in
        let more = spec.mark_data p.units p.text.now mark in
        OnOk result (map view values.new.items ≡ map view values.old.items ++ more) }
{
    if let Some(range) = mark {
        values.push(range_value(alloc, page.units, page.text, range)?)?;
    }
    Ok(())
}

/// Adds the objects of marks.
fn push_marks(
    alloc: Global,
    page: Page<'_>,
    marks: &[Option<TextRange>],
    values: &mut Vec<Value>,
) -> Result<(), AllocError>
    ensures { let p = page.entry in
        let more = flat_map (spec.mark_data p.units p.text.now) marks.now in
        OnOk result (map view values.new.items ≡ map view values.old.items ++ more) }
{
    for mark in marks {
        push_mark(alloc, page, *mark, values)?;
    }
    Ok(())
}

/// Adds those of what stands at a position.
fn push_highlights(
    alloc: Global,
    page: Page<'_>,
    place: Point,
    values: &mut Vec<Value>,
) -> Result<(), AllocError>
    ensures { let p = page.entry in
        let more = spec.highlights_at p.units p.text.now p.parts.now place in
        OnOk result (map view values.new.items ≡ map view values.old.items ++ more) }
{
    match part_at(page.text.byte(page.units, place), page.parts) {
        Some(part) => push_marks(alloc, page, &marks(part), values),
        None => Ok(()),
    }
}

/// The name and the braces of what stands at positions.
pub(crate) fn highlights(
    alloc: Global,
    page: Page<'_>,
    places: &[Point],
) -> Result<Vec<Value>, AllocError>
    ensures { let p = page.entry in
        let at = spec.highlights_at p.units p.text.now p.parts.now in
        IfOk result (λ values. map view values.items ≡ flat_map at places.now) }
{
    let mut values = Vec::new(alloc);
    for place in places {
        push_highlights(alloc, page, *place, &mut values)?;
    }
    Ok(values)
}
