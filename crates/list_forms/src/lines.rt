//! Lines of JSON, and what is told of places there.
ghost use Rattle.std.specs.Prelude.{◌≡◌, IfOk, false, string_bytes};
ghost use Rattle.serde_json.specs.View.{view};
ghost use Rattle.serde_json.specs.Written.{has_float};
ghost use Rattle.list_forms.specs.Lines as spec;

use line_index::Position;
use serde_json::Value;
use std::alloc::{AllocError, Global};

/// How each entry of a list is written.
#[derive(Clone, Copy, Debug)]
pub enum Form {
    /// As a line of text.
    Line {
        /// Whether places are faint, words in other colours, and names bold, by the sequences of a terminal.
        is_colored: bool,
    },
    /// As a JSON object on a line.
    Json,
}

/// A value without floats on one line.
///
/// # Errors
///
/// Only if memory runs out.
pub fn value_line(alloc: Global, value: &Value) -> Result<String, AllocError>
    requires { has_float (view value.now) ≡ false }
    ensures { IfOk result (λ line. string_bytes line ≡ spec.value_line (view value.now)) }
{
    let mut line = value.to_string(alloc)?;
    line.push_str("\n")?;
    Ok(line)
}

/// The line of a place, or null.
pub fn line_number(position: Option<Position>) -> Value
    ensures { view result ≡ spec.line_number position }
{
    match position {
        None => Value::Null,
        Some(position) => Value::from(position.line),
    }
}

/// The column of a place, or null.
pub fn column_number(position: Option<Position>) -> Value
    ensures { view result ≡ spec.column_number position }
{
    match position {
        None => Value::Null,
        Some(position) => Value::from(position.column),
    }
}
