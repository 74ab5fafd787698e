//! The texts of replies.
ghost use Rattle.std.specs.Prelude.{◌≡◌, ◌++◌, IfOk, OnOk, codes, false, map, string_bytes};
ghost use Rattle.serde_json.specs.View.{view};
ghost use Rattle.serde_json.specs.Written.{compact_text, has_float};
ghost use Rattle.source_session.specs.Inner.{IsUnfloating, outcome_view};
ghost use Rattle.source_session.specs.Replies.{number_text, outcome_text, reply_text};

use crate::error::{LineError, error_value};
use serde_json::Value;
use std::alloc::{AllocError, Global};

/// The values of the shows of a line, or why it has none.
pub(crate) type Outcome = Result<Vec<Value>, LineError>;

/// What a line is answered with: the id that it gave, and its outcome.
#[derive(Drop)]
pub(crate) struct Reply {
    pub(crate) id: Value,
    pub(crate) outcome: Outcome,
}

// Adds a value without a float.
fn push_value(alloc: Global, value: &Value, text: &mut String) -> Result<(), AllocError>
    requires { has_float (view value.now) ≡ false }
    ensures { OnOk result (string_bytes text.new ≡ string_bytes text.old
        ++ compact_text (view value.now)) }
{
    let written = value.to_string(alloc)?;
    text.push_str(&written)?;
    Ok(())
}

fn push_number(number: Option<u64>, text: &mut String) -> Result<(), AllocError>
    ensures { OnOk result (string_bytes text.new ≡ string_bytes text.old ++ number_text number) }
{
    match number {
        Some(number) => write!(text, "{number}"),
        None => {
            text.push_str("null")?;
            Ok(())
        }
    }
}

fn push_outcome(
    alloc: Global,
    outcome: Outcome,
    is_open: bool,
    text: &mut String,
) -> Result<(), AllocError>
    requires { IsUnfloating outcome }
    ensures { OnOk result (string_bytes text.new ≡ string_bytes text.old
        ++ outcome_text is_open (outcome_view outcome)) }
{
    match outcome {
        Ok(values) => {
            text.push_str("\"shows\":")?;
            push_value(alloc, &Value::Array(values), text)
        }
        Err(error) => {
            text.push_str("\"error\":")?;
            let value = error_value(alloc, error, is_open)?;
            push_value(alloc, &value, text)
        }
    }
}

/// The text of a reply, where the last edit has this number.
///
/// # Errors
///
/// Only if memory runs out.
pub(crate) fn reply_text(
    alloc: Global,
    reply: Reply,
    number: Option<u64>,
) -> Result<String, AllocError>
    requires id { has_float (view reply.id) ≡ false }
    requires outcome { IsUnfloating reply.outcome }
    ensures { IfOk result (λ text. string_bytes text
        ≡ reply_text (view reply.id) number (outcome_view reply.outcome)) }
{
    let mut text = String::from_str(alloc, "{\"id\":")?;
    push_value(alloc, &reply.id, &mut text)?;
    text.push_str(",\"number\":")?;
    push_number(number, &mut text)?;
    text.push_str(",")?;
    push_outcome(alloc, reply.outcome, number.is_some(), &mut text)?;
    text.push_str("}")?;
    Ok(text)
}
