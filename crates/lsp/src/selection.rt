//! The ranges around a position, each in the next larger one.
ghost use Rattle.std.specs.Prelude.{◌≡◌, IfOk, map};
ghost use Rattle.serde_json.specs.View.{view};
ghost use Rattle.lsp.specs.Selection as spec;
ghost use Rattle.lsp.specs.Views.{chain_view};

use crate::parts::{Page, Part, is_around, range_value};
use crate::position::{Span, span_value};
use line_index::Point;
use rust_paths::TextRange;
use serde_json::{Map, Value, put};
use std::alloc::{AllocError, Global};

/// A range, and its object, which holds those around it.
#[derive(Drop)]
pub(crate) struct Chain {
    pub(crate) range: TextRange,
    pub(crate) value: Value,
}

fn is_within(outer: TextRange, range: TextRange) -> bool
    ensures { result ≡ spec.is_range_within outer range }
{
    outer.start <= range.start
        && range.end <= outer.end
        && (outer.start < range.start || range.end < outer.end)
}

fn inner_value(alloc: Global, span: Span, parent: Value) -> Result<Value, AllocError>
    ensures { IfOk result (λ value. view value ≡ spec.inner_data span (view parent)) }
{
    let span = span_value(alloc, span)?;
    let mut members = Map::new(alloc);
    put(&mut members, alloc, "range", span)?;
    put(&mut members, alloc, "parent", parent)?;
    Ok(Value::Object(members))
}

/// Puts a range into the innermost, if it is within that and around a byte.
fn with_range(
    alloc: Global,
    page: Page<'_>,
    at: usize,
    range: TextRange,
    chain: Chain,
) -> Result<Chain, AllocError>
    ensures { let p = page.entry in
        let inner = spec.with_range p.units p.text.now at range (chain_view chain) in
        IfOk result (λ made. chain_view made ≡ inner) }
{
    if is_within(chain.range, range) && is_around(at, range) {
        let value = inner_value(alloc, page.text.span(page.units, range), chain.value)?;
        return Ok(Chain { range, value });
    }
    Ok(chain)
}

/// The same of the range of a part, and then of its name.
fn with_part(
    alloc: Global,
    page: Page<'_>,
    at: usize,
    part: Part,
    chain: Chain,
) -> Result<Chain, AllocError>
    ensures { let p = page.entry in
        let inner = spec.with_part p.units p.text.now at part (chain_view chain) in
        IfOk result (λ made. chain_view made ≡ inner) }
{
    let chain = with_range(alloc, page, at, part.range, chain)?;
    with_range(alloc, page, at, part.name.unwrap_or(part.range), chain)
}

/// The innermost range around a position, in those around it up to the whole text.
fn selection_at(alloc: Global, page: Page<'_>, place: Point) -> Result<Value, AllocError>
    ensures { let p = page.entry in
        let inner = spec.selection_at p.units p.text.now p.parts.now place in
        IfOk result (λ value. view value ≡ inner) }
{
    let at = page.text.byte(page.units, place);
    let range = TextRange {
        start: 0,
        end: page.text.text().len(),
    };
    let value = range_value(alloc, page.units, page.text, range)?;
    let mut chain = Chain { range, value };
    for part in page.parts {
        chain = with_part(alloc, page, at, *part, chain)?;
    }
    Ok(chain.value)
}

/// Those of positions.
pub(crate) fn selections(
    alloc: Global,
    page: Page<'_>,
    places: &[Point],
) -> Result<Vec<Value>, AllocError>
    ensures { let p = page.entry in
        let at = spec.selection_at p.units p.text.now p.parts.now in
        IfOk result (λ values. map view values.items ≡ map at places.now) }
{
    let mut values = Vec::with_capacity(alloc, places.len())?;
    for place in places {
        values.push(selection_at(alloc, page, *place)?)?;
    }
    Ok(values)
}
