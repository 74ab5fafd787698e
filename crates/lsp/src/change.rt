//! Changes of a text.
ghost use Rattle.std.specs.Prelude.{◌≡◌, codes, map, IsCharBoundary, OnOk, string_bytes};
ghost use Rattle.serde_json.specs.View.{items_view, view};
ghost use Rattle.hir_input_json.specs.Forms.{each, list_of, maybe_at, required_at as required_form};
ghost use Rattle.hir_input_json.specs.Held.{IsLeftWithout, object_held};
ghost use Rattle.hir_input_json.specs.Reads.{Reads};
ghost use Rattle.lsp.specs.Changes as spec;
ghost use Rattle.lsp.specs.Positions.{span_form};
ghost use Rattle.lsp.specs.Views.{change_view};

use crate::document::text_at;
use crate::position::{Span, span_of};
use crate::text::LinedText;
use hir_input_json::member::{Members, members_of, required_at, take_member};
use hir_input_json::{Fault, ReadIn, each_of};
use line_index::Units;
use serde_json::Value;
use std::alloc::{AllocError, Global};

/// A text in the place of a span, or of all.
#[derive(Debug, Drop)]
pub(crate) struct Change {
    pub(crate) span: Option<Span>,
    pub(crate) text: String,
}

fn span_at(alloc: Global, members: &mut Members) -> Result<Option<Span>, Fault>
    ensures reads { Reads (λ span. span) result (maybe_at (codes "range") span_form (object_held members.old)) }
    ensures left { IsLeftWithout (codes "range") members.old members.new }
{
    match take_member(members, "range") {
        Some(found) => Ok(Some(span_of(alloc, found).in_member(alloc, "range")?)),
        None => Ok(None),
    }
}

#[tactic(auto, using(hir_input_json::proofs::MemberObjects::field_without))]
fn change_of(alloc: Global, value: Value) -> Result<Change, Fault>
    ensures { Reads change_view result (spec.content_change_form (view value)) }
{
    let mut members = members_of(alloc, value)?;
    let span = span_at(alloc, &mut members)?;
    let text = text_at(alloc, &mut members, "text")?;
    Ok(Change { span, text })
}

fn each_change(alloc: Global, items: Vec<Value>) -> Result<Vec<Change>, Fault>
    ensures { Reads (λ v. map change_view v.items) result (each spec.content_change_form (items_view items.items)) }
{
    let mut done = Vec::with_capacity(alloc, items.len())?;
    for item in items {
        let place = done.len();
        let read = change_of(alloc, item).in_item(alloc, place)?;
        done.push(read)?;
    }
    Ok(done)
}

fn changes_of(alloc: Global, value: Value) -> Result<Vec<Change>, Fault>
    ensures { Reads (λ v. map change_view v.items) result (list_of spec.content_change_form (view value)) }
{
    match value {
        Value::Array(items) => each_change(alloc, items),
        _ => Err(Fault::here(alloc)),
    }
}

/// Takes the changes out that parameters ask for.
pub(crate) fn changes_at(alloc: Global, members: &mut Members) -> Result<Vec<Change>, Fault>
    ensures reads { Reads (λ v. map change_view v.items) result
        (required_form (codes "contentChanges") (list_of spec.content_change_form) (object_held members.old)) }
{
    let found = required_at(alloc, members, "contentChanges")?;
    changes_of(alloc, found).in_member(alloc, "contentChanges")
}

/// Puts a text between two places of another, in whichever order these are.
fn replace_between(
    alloc: Global,
    from: usize,
    to: usize,
    new: &str,
    text: &mut LinedText,
) -> Result<(), AllocError>
    requires from { IsCharBoundary text.old from }
    requires to { IsCharBoundary text.old to }
    ensures { OnOk result (text.new ≡ spec.replaced_between from to new.now text.old) }
{
    if from <= to {
        return text.replace(alloc, from, to, new);
    }
    text.replace(alloc, to, from, new)
}

/// Makes a change of a text.
fn make_change(
    alloc: Global,
    units: Units,
    change: Change,
    text: &mut LinedText,
) -> Result<(), AllocError>
    ensures { let c = change_view change in
        OnOk result (text.new ≡ spec.changed_in units c.span c.text text.old) }
{
    let Some(span) = change.span else {
        *text = LinedText::new(alloc, change.text)?;
        return Ok(());
    };
    let from = text.byte(units, span.start);
    let to = text.byte(units, span.end);
    replace_between(alloc, from, to, &change.text, text)
}

/// Makes changes of a text, each in the text that the one before left.
///
/// # Errors
///
/// Only if memory runs out.
pub(crate) fn make_changes(
    alloc: Global,
    units: Units,
    changes: Vec<Change>,
    text: &mut LinedText,
) -> Result<(), AllocError>
    ensures { OnOk result (text.new ≡ spec.text_with_changes units (map change_view changes.items) text.old) }
{
    for change in changes {
        make_change(alloc, units, change, text)?;
    }
    Ok(())
}
