//! What is answered by where the items and members of a document stand.
ghost use Rattle.std.specs.Prelude.{◌≡◌, ◌⊎◌, Err, IfOk, map};
ghost use Rattle.serde_json.specs.View.{items_view, view};
ghost use Rattle.hir_input_json.specs.Forms.{each, list_of, required_at as required_form};
ghost use Rattle.hir_input_json.specs.Held.{object_held};
ghost use Rattle.hir_input_json.specs.Reads.{Reads};
ghost use Rattle.lsp.specs.Inner.{IsPlainOutcome, request_outcome_view};
ghost use Rattle.lsp.specs.Positions.{position_form};
ghost use Rattle.lsp.specs.Ranges as spec;
ghost use Rattle.lsp.specs.Views.{document_view, documents_view};
ghost use Rattle.lsp.specs.declared.response.ResponseError.TheVariants.{OutOfMemory};

use crate::document::{Document, Documents, named_at, open_document};
use crate::folding::folds;
use crate::highlight::highlights;
use crate::method::RangeKind;
use crate::parts::{Page, document_parts};
use crate::position::{place_of, position_at};
use crate::response::Outcome;
use crate::selection::selections;
use hir_input_json::member::{Members, members_of, required_at};
use hir_input_json::{Fault, ReadIn};
use itemtree_commands::Options;
use line_index::{Point, Units};
use serde_json::Value;
use std::alloc::{AllocError, Global};

fn each_place(alloc: Global, items: Vec<Value>) -> Result<Vec<Point>, Fault>
    ensures { Reads (λ v. v.items) result (each position_form (items_view items.items)) }
{
    let mut done = Vec::with_capacity(alloc, items.len())?;
    for item in items {
        let place = done.len();
        let read = place_of(alloc, item).in_item(alloc, place)?;
        done.push(read)?;
    }
    Ok(done)
}

fn places_of(alloc: Global, value: Value) -> Result<Vec<Point>, Fault>
    ensures { Reads (λ v. v.items) result (list_of position_form (view value)) }
{
    match value {
        Value::Array(items) => each_place(alloc, items),
        _ => Err(Fault::here(alloc)),
    }
}

/// The positions that parameters ask about.
fn places_at(alloc: Global, kind: RangeKind, members: &mut Members) -> Result<Vec<Point>, Fault>
    ensures { Reads (λ v. v.items) result (spec.places_form kind (object_held members.old)) }
{
    match kind {
        RangeKind::Folding => Ok(Vec::new(alloc)),
        RangeKind::Selection => {
            let found = required_at(alloc, members, "positions")?;
            places_of(alloc, found).in_member(alloc, "positions")
        }
        RangeKind::Highlight => {
            let place = position_at(alloc, members, "position")?;
            Ok(vec![in alloc; place]?)
        }
    }
}

/// The document that parameters are about, and the positions.
fn asked_places(
    alloc: Global,
    kind: RangeKind,
    documents: &Documents,
    params: Value,
) -> Result<(&Document, Vec<Point>), Fault>
    ensures { Reads (λ asked. (document_view asked.0.now, asked.1.items)) result
        (spec.asked_places kind (documents_view documents.now) (view params)) }
{
    let mut members = members_of(alloc, params)?;
    let uri = named_at(alloc, &mut members, "textDocument")?;
    let places = places_at(alloc, kind, &mut members)?;
    let document = open_document(alloc, documents, &uri)?;
    Ok((document, places))
}

fn range_values(
    alloc: Global,
    kind: RangeKind,
    page: Page<'_>,
    places: &[Point],
) -> Result<Vec<Value>, AllocError>
    ensures { let p = page.entry in
        let items = spec.range_items kind p.units p.text.now p.parts.now places.now in
        IfOk result (λ values. map view values.items ≡ items) }
{
    match kind {
        RangeKind::Folding => folds(alloc, page),
        RangeKind::Selection => selections(alloc, page, places),
        RangeKind::Highlight => highlights(alloc, page, places),
    }
}

/// What is answered to parameters.
pub(crate) fn ranges(
    alloc: Global,
    options: &Options,
    units: Units,
    kind: RangeKind,
    documents: &Documents,
    params: Value,
) -> Outcome
    ensures ranges { let out = request_outcome_view result in
        (out ≡ Err OutOfMemory) ⊎ spec.AreAskedRanges options.now units kind
        (spec.asked_places kind (documents_view documents.now) (view params)) out }
    ensures plain { IsPlainOutcome result }
{
    let (document, places) = asked_places(alloc, kind, documents, params)?;
    let parts = document_parts(alloc, options, document)?;
    let page = Page {
        units,
        text: &document.text,
        parts: &parts,
    };
    let values = range_values(alloc, kind, page, &places)?;
    Ok(Value::Array(values))
}
