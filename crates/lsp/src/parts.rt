//! Where the items and members of a document stand.
ghost use Rattle.std.specs.Prelude.{◌≡◌, ◌++◌, IfErr, IfOk, OnOk, flat_map, map, true};
ghost use Rattle.serde_json.specs.View.{view};
ghost use Rattle.source_rows.specs.ListedViews.{listed_view, reading_view};
ghost use Rattle.lsp.specs.Parts as spec;
ghost use Rattle.lsp.specs.Ranges.{HasNoParts};
ghost use Rattle.lsp.specs.Views.{document_view};

use crate::document::Document;
use crate::listed::reading_of;
use crate::position::span_value;
use crate::symbol::member_selection;
use crate::text::LinedText;
use itemtree_commands::Options;
use line_index::Units;
use rust_items::{ItemPlace, Wanted, WantedMetas};
use rust_paths::TextRange;
use serde_json::{Map, Value, put};
use source_rows::{ListedMember, ReadError, Reading, read_listed};
use std::alloc::{AllocError, Global};

/// An item or a member: where it stands, its name and its braces.
#[derive(Clone, Copy, Debug)]
pub(crate) struct Part {
    pub(crate) range: TextRange,
    pub(crate) name: Option<TextRange>,
    pub(crate) body: Option<TextRange>,
}

/// A text and its parts, for a client that counts in these units.
#[derive(Clone, Copy)]
pub(crate) struct Page<'a> {
    pub(crate) units: Units,
    pub(crate) text: &'a LinedText,
    pub(crate) parts: &'a [Part],
}

/// Whether a byte stands in a range or at its end.
pub(crate) fn is_around(at: usize, range: TextRange) -> bool
    ensures { result ≡ spec.holds_byte at range }
{
    range.start <= at && at <= range.end
}

/// The object of a range.
pub(crate) fn range_value(
    alloc: Global,
    units: Units,
    text: &LinedText,
    range: TextRange,
) -> Result<Value, AllocError>
    ensures { IfOk result (λ value. view value ≡ spec.range_data units text.now range) }
{
    let span = span_value(alloc, text.span(units, range))?;
    let mut members = Map::new(alloc);
    put(&mut members, alloc, "range", span)?;
    Ok(Value::Object(members))
}

fn push_members(
    text: &str,
    members: &[ListedMember],
    parts: &mut Vec<Part>,
) -> Result<(), AllocError>
    ensures { let more = map (spec.listed_part text.now) (map listed_view members.now) in
        OnOk result (parts.new.items ≡ parts.old.items ++ more) }
{
    for member in members {
        parts.push(Part {
            range: member.range,
            name: Some(member_selection(text, member)),
            body: member.body,
        })?;
    }
    Ok(())
}

/// Adds an item that stands there, and behind it its members.
fn push_parts(
    alloc: Global,
    text: &str,
    reading: Reading<'_>,
    place: ItemPlace,
    parts: &mut Vec<Part>,
) -> Result<(), AllocError>
    ensures { let more = spec.parts_at text.now (reading_view reading.entry) place in
        OnOk result (parts.new.items ≡ parts.old.items ++ more) }
{
    parts.push(Part {
        range: place.range,
        name: place.name,
        body: place.body,
    })?;
    let members = reading.members(alloc, Some(place), true)?;
    push_members(text, &members, parts)
}

fn parts_of(
    alloc: Global,
    text: &str,
    reading: Reading<'_>,
    places: &[ItemPlace],
) -> Result<Vec<Part>, AllocError>
    ensures { IfOk result (λ parts. parts.items
        ≡ flat_map (spec.parts_at text.now (reading_view reading.entry)) places.now) }
{
    let mut parts = Vec::with_capacity(alloc, places.len())?;
    for place in places {
        push_parts(alloc, text, reading, *place, &mut parts)?;
    }
    Ok(parts)
}

/// The parts of a Rust text, in its order.
fn text_parts(alloc: Global, options: &Options, text: &str) -> Result<Vec<Part>, ReadError>
    ensures parts { IfOk result (λ parts. spec.AreTextParts options.now true text.now parts.items) }
    ensures refused { IfErr result (HasNoParts true text.now) }
{
    let wanted = Wanted {
        bodies: false,
        metas: WantedMetas::Conditions,
    };
    let listed = read_listed(alloc, text, wanted, options.edition.year)?;
    let reading = reading_of(options, text, listed.mended.as_ref());
    let parts = parts_of(alloc, text, reading, &listed.file.places)?;
    Ok(parts)
}

/// The parts of a document: one that is not Rust has none.
///
/// # Errors
///
/// `TooLong` where the text or its mended one has more than 2^32 bytes, and `OutOfMemory`.
pub(crate) fn document_parts(
    alloc: Global,
    options: &Options,
    document: &Document,
) -> Result<Vec<Part>, ReadError>
    ensures parts { let d = document_view document.now in
        IfOk result (λ parts. spec.AreTextParts options.now d.is_rust d.text parts.items) }
    ensures refused { let d = document_view document.now in
        IfErr result (HasNoParts d.is_rust d.text) }
{
    match document.is_rust {
        true => text_parts(alloc, options, document.text.text()),
        false => Ok(Vec::new(alloc)),
    }
}
