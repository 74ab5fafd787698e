//! Literals, read from their forms.
ghost use Rattle.std.specs.Prelude.{◌≡◌, OnOk, codes, option_map, string_bytes};
ghost use Rattle.serde_json.specs.View.{view};
ghost use Rattle.hir_input_json.specs.Forms.{required_at as required_form, optional_at, maybe_at, text_form};
ghost use Rattle.hir_input_json.specs.Held.{IsLeftWithout, object_held};
ghost use Rattle.hir_input_json.specs.Literals.{literal as literal_form, span as span_form, literal_span as span_from};
ghost use Rattle.hir_input_json.specs.Reads.{Reads};

use crate::fault::{Fault, ReadIn};
use crate::member::{
    Members, field, maybe_of, members_of, required_at, take_member, text_of, u32_of,
};
use hir_input::{Literal, Span, SyntaxContext};
use serde_json::Value;
use std::alloc::Global;

// A text that has to be there, taken out.
pub(crate) fn required_text_at(
    alloc: Global,
    members: &mut Members,
    key: &str,
) -> Result<String, Fault>
    ensures reads { Reads string_bytes result (required_form key.now text_form (object_held members.old)) }
    ensures left { OnOk result (IsLeftWithout key.now members.old members.new) }
{
    let found = required_at(alloc, members, key)?;
    text_of(alloc, found).in_member(alloc, key)
}

fn string_at(alloc: Global, members: &mut Members) -> Result<Option<String>, Fault>
    ensures reads { Reads (option_map string_bytes) result
        (maybe_at (codes "string") text_form (object_held members.old)) }
    ensures left { OnOk result (IsLeftWithout (codes "string") members.old members.new) }
{
    maybe_of!(alloc, members, "string", text_of)
}

fn span_of(alloc: Global, value: &Value, ctxt: SyntaxContext) -> Result<Span, Fault>
    ensures { Reads (λ span. span) result (span_form ctxt (view value.now)) }
{
    let Some(items) = value.as_array() else {
        return Err(Fault::here(alloc));
    };
    match items.as_slice() {
        [start, end] => {
            let start = u32_of(alloc, start).in_item(alloc, 0)?;
            let end = u32_of(alloc, end).in_item(alloc, 1)?;
            Ok(Span { start, end, ctxt })
        }
        _ => Err(Fault::here(alloc)),
    }
}

// Empty at 0 where it is absent.
fn span_at(alloc: Global, members: &Members, ctxt: SyntaxContext) -> Result<Span, Fault>
    ensures { Reads (λ span. span) result
        (optional_at (span_from ctxt 0 0) (codes "span") (span_form ctxt) (object_held members.now)) }
{
    match field(members, "span") {
        Some(found) => { span_of(alloc, found, ctxt).in_member(alloc, "span") }
        None => Ok(Span {
            start: 0,
            end: 0,
            ctxt,
        }),
    }
}

#[tactic(auto, using(crate::proofs::MemberObjects::field_without))]
fn literal_of(alloc: Global, value: Value, ctxt: SyntaxContext) -> Result<Literal, Fault>
    ensures { Reads (λ literal. literal) result (literal_form ctxt (view value)) }
{
    let mut members = members_of(alloc, value)?;
    let rendered = required_text_at(alloc, &mut members, "rendered")?;
    let string = string_at(alloc, &mut members)?;
    let span = span_at(alloc, &members, ctxt)?;
    Ok(Literal {
        rendered,
        string,
        span,
    })
}

// The value of a meta in this context, taken out.
pub(crate) fn literal_at(
    alloc: Global,
    members: &mut Members,
    ctxt: SyntaxContext,
) -> Result<Option<Literal>, Fault>
    ensures { Reads (λ literal. literal) result
        (maybe_at (codes "value") (literal_form ctxt) (object_held members.old)) }
{
    maybe_of!(alloc, members, "value", literal_of, ctxt)
}
