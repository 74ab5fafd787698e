//! Positions and ranges as the protocol has them.
ghost use Rattle.std.specs.Prelude.{◌≡◌, IfOk, OnOk, option_and_then};
ghost use Rattle.serde_json.specs.Find.{as_number};
ghost use Rattle.serde_json.specs.View.{view};
ghost use Rattle.hir_input_json.specs.Forms.{required_at};
ghost use Rattle.hir_input_json.specs.Held.{IsLeftWithout, object_held};
ghost use Rattle.hir_input_json.specs.Reads.{Reads};
ghost use Rattle.lsp.specs.Positions as spec;

use hir_input_json::member::{Members, field, members_of, required_at};
use hir_input_json::{Fault, ReadIn};
use line_index::Point;
use serde_json::{Map, Value, json, put};
use std::alloc::{AllocError, Global};
use std::num::saturating_f64_to_u32;

/// Where something begins and ends.
#[derive(Clone, Copy, Debug)]
pub(crate) struct Span {
    pub(crate) start: Point,
    pub(crate) end: Point,
}

/// The numbers of lines and characters are smaller.
const TOO_LARGE: u64 = 0x8000_0000;

/// The whole number that a float is, if it is one: some editors write `12.0` for 12.
fn whole_float(number: f64) -> Option<u64>
    ensures { result ≡ spec.whole_float number }
{
    let whole = saturating_f64_to_u32(number);
    if f64::from(whole) == number {
        Some(u64::from(whole))
    } else {
        None
    }
}

fn whole_number(value: &Value) -> Option<u64>
    ensures { result ≡ option_and_then spec.whole_number (as_number (view value.now)) }
{
    if value.is_f64() {
        return whole_float(value.as_f64()?);
    }
    value.as_u64()
}

fn whole_of(alloc: Global, value: &Value) -> Result<usize, Fault>
    ensures { Reads (λ n. n) result (spec.position_number (view value.now)) }
{
    match whole_number(value) {
        Some(number) if number < TOO_LARGE => Ok(number as usize),
        _ => Err(Fault::here(alloc)),
    }
}

fn whole_at(alloc: Global, members: &Members, key: &str) -> Result<usize, Fault>
    ensures { Reads (λ n. n) result (required_at key.now spec.position_number (object_held members.now)) }
{
    match field(members, key) {
        Some(found) => whole_of(alloc, found).in_member(alloc, key),
        None => Err(Fault::at(alloc, key)),
    }
}

/// A position.
pub(crate) fn place_of(alloc: Global, value: Value) -> Result<Point, Fault>
    ensures { Reads (λ place. place) result (spec.position_form (view value)) }
{
    let members = members_of(alloc, value)?;
    let line = whole_at(alloc, &members, "line")?;
    let character = whole_at(alloc, &members, "character")?;
    Ok(Point {
        line,
        column: character,
    })
}

/// The position at a key.
pub(crate) fn position_at(alloc: Global, members: &mut Members, key: &str) -> Result<Point, Fault>
    ensures reads { Reads (λ place. place) result (required_at key.now spec.position_form (object_held members.old)) }
    ensures left { OnOk result (IsLeftWithout key.now members.old members.new) }
{
    let found = required_at(alloc, members, key)?;
    place_of(alloc, found).in_member(alloc, key)
}

/// A range.
///
/// `WrongForm` comes only where it is not of its form (`Positions.span_form`), and tells where.
#[tactic(auto, using(hir_input_json::proofs::MemberObjects::field_without))]
pub(crate) fn span_of(alloc: Global, value: Value) -> Result<Span, Fault>
    ensures { Reads (λ span. span) result (spec.span_form (view value)) }
{
    let mut members = members_of(alloc, value)?;
    let start = position_at(alloc, &mut members, "start")?;
    let end = position_at(alloc, &mut members, "end")?;
    Ok(Span { start, end })
}

/// The object of a position.
fn place_value(alloc: Global, place: Point) -> Result<Value, AllocError>
    ensures { IfOk result (λ value. view value ≡ spec.place_data place) }
{
    let (line, character) = (place.line, place.column);
    json!(in alloc; {"character": character, "line": line})
}

/// The object of a range.
pub(crate) fn span_value(alloc: Global, span: Span) -> Result<Value, AllocError>
    ensures { IfOk result (λ value. view value ≡ spec.span_object span) }
{
    let start = place_value(alloc, span.start)?;
    let mut members = Map::new(alloc);
    put(&mut members, alloc, "start", start)?;
    let end = place_value(alloc, span.end)?;
    put(&mut members, alloc, "end", end)?;
    Ok(Value::Object(members))
}
