//! What a message is.
ghost use Rattle.std.specs.Prelude.{◌≡◌, codes, false, option_and_then, option_map, string_bytes, unwrap_or};
ghost use Rattle.serde_json.specs.Data.{null};
ghost use Rattle.serde_json.specs.Find.{as_str};
ghost use Rattle.serde_json.specs.View.{view};
ghost use Rattle.serde_json.specs.Written.{has_float};
ghost use Rattle.hir_input_json.specs.Forms.{field};
ghost use Rattle.hir_input_json.specs.Held.{IsLeftWithout, object_held};
ghost use Rattle.lsp.specs.Messages as spec;
ghost use Rattle.lsp.specs.Inner.{HasPlainId};
ghost use Rattle.lsp.specs.Views.{incoming_view};

use hir_input_json::float::has_float;
use hir_input_json::member::{Members, field, take_member};
use serde_json::Value;

/// A message.
#[derive(Drop)]
pub(crate) enum Incoming {
    /// What has to be answered under its id.
    Request {
        id: Value,
        method: String,
        params: Value,
    },
    /// What has no answer.
    Notification {
        method: String,
        params: Value,
    },
    /// An answer to a request of ours.
    Response,
    /// JSON that is no message.
    NoMessage,
}

fn is_id(value: &Value) -> bool
    ensures { result ≡ spec.is_request_id (view value.now) }
{
    match value {
        Value::String(_) => true,
        Value::Number(_) => !has_float(value),
        _ => false,
    }
}

/// Takes a text out, if one is there.
fn taken_text(members: &mut Members, key: &str) -> Option<String>
    ensures text { option_map string_bytes result ≡ option_and_then as_str (field key.now (object_held members.old)) }
    ensures left { IsLeftWithout key.now members.old members.new }
{
    match take_member(members, key) {
        Some(Value::String(text)) => Some(text),
        _ => None,
    }
}

fn request(id: Value, method: String, params: Value) -> Incoming
    ensures message { incoming_view result ≡ spec.asked_message (view id) (string_bytes method) (view params) }
    ensures id { HasPlainId result }
{
    if is_id(&id) {
        Incoming::Request { id, method, params }
    } else {
        Incoming::NoMessage
    }
}

/// A value, or null where there is none.
fn or_null(value: Option<Value>) -> Value
    ensures { view result ≡ unwrap_or (option_map view value) null }
{
    match value {
        Some(value) => value,
        None => Value::Null,
    }
}

/// What a message is by its method, its id and whether it has an error.
fn by_method(method: Option<String>, id: Option<Value>, params: Value, has_error: bool) -> Incoming
    ensures message { incoming_view result
        ≡ spec.by_method (option_map string_bytes method) (option_map view id) (view params) has_error }
    ensures id { HasPlainId result }
{
    match (method, id) {
        (Some(method), Some(id)) => request(id, method, params),
        (Some(method), None) => Incoming::Notification { method, params },
        (None, Some(_)) => Incoming::Response,
        (None, None) if has_error => Incoming::Response,
        (None, None) => Incoming::NoMessage,
    }
}

/// What an object is as a message.
#[tactic(auto, using(hir_input_json::proofs::MemberObjects::field_without))]
fn incoming_of(mut members: Members) -> Incoming
    ensures message { incoming_view result ≡ spec.incoming (object_held members) }
    ensures id { HasPlainId result }
{
    let method = taken_text(&mut members, "method");
    let id = take_member(&mut members, "id");
    let params = or_null(take_member(&mut members, "params"));
    let has_error = field(&members, "error").is_some();
    by_method(method, id, params, has_error)
}

/// What a value is as a message.
#[tactic(auto, unfolding(hir_input_json::specs::Forms::field))]
pub(crate) fn message_of(value: Value) -> Incoming
    ensures message { incoming_view result ≡ spec.incoming (view value) }
    ensures id { HasPlainId result }
{
    match value {
        Value::Object(members) => incoming_of(members),
        Value::Null | Value::Bool(_) | Value::Number(_) | Value::String(_) | Value::Array(_) =>
            Incoming::NoMessage,
    }
}
