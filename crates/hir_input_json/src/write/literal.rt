//! Literals as JSON.
ghost use Rattle.std.specs.Prelude.{◌≡◌, IfOk, option_map, string_bytes};
ghost use Rattle.serde_json.specs.View.{view};
ghost use Rattle.hir_input_json.specs.Writing.Literals.{literal_data, span_data};
ghost use Rattle.hir_input_json.specs.Writing.Parts.{maybe_data, text_or_null as text_data};
ghost use Rattle.hir_input_json.specs.Writing.Writes.{Writes};

use crate::write::context::is_same;
use crate::write::fault::{WriteFault, Written};
use crate::write::object::{of_text, with};
use crate::write::values::object;
use hir_input::{Literal, Span, SyntaxContext};
use serde_json::{Value, json};
use std::alloc::{AllocError, Global};

fn span_value(alloc: Global, span: Span) -> Written
    ensures { Writes view result (span_data span) }
{
    Ok(json!(in alloc; [span.start, span.end])?)
}

fn text_or_null(alloc: Global, text: &Option<String>) -> Result<Value, AllocError>
    ensures { IfOk result (λ v. view v ≡ text_data (option_map string_bytes text.now)) }
{
    match text {
        Some(text) => Value::try_from_str(alloc, text.as_str()),
        None => Ok(Value::Null),
    }
}

fn literal_value(alloc: Global, context: SyntaxContext, literal: &Literal) -> Written
    ensures { Writes view result (literal_data context literal.now) }
{
    if !is_same(context, literal.span.ctxt) {
        return Err(WriteFault::NoForm);
    }
    let span = span_value(alloc, literal.span)?;
    let string = text_or_null(alloc, &literal.string)?;
    let members = of_text(alloc, "rendered", literal.rendered.as_str())?;
    Ok(object!(alloc, members, "span": span, "string": string))
}

// The literal of a meta in this context, null where there is none.
pub(crate) fn literal_or_null(
    alloc: Global,
    context: SyntaxContext,
    literal: &Option<Literal>,
) -> Written
    ensures { Writes view result (maybe_data (literal_data context) literal.now) }
{
    match literal {
        Some(literal) => literal_value(alloc, context, literal),
        None => Ok(Value::Null),
    }
}
