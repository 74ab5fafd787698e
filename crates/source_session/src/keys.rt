//! The keys that the objects of a line may have.
ghost use Rattle.std.specs.Prelude.{◌≡◌, is_none, option_map};
ghost use Rattle.serde_json.specs.View.{members_view, view};
ghost use Rattle.hir_input_json.specs.{Forms.unless_null, Held.object_held, Reads.Reads};
ghost use Rattle.source_session.specs.Keys as spec;
ghost use Rattle.source_session.specs.Keys.{none_at, only_known};

use hir_input_json::Fault;
use hir_input_json::member::field;
use serde_json::{Map, Value};
use std::alloc::Global;

/// The members of an object of a line.
pub(crate) type Members = Map<String, Value>;

/// An object of a line, each with keys of its own.
#[derive(Clone, Copy)]
pub(crate) enum LineObject {
    Whole,
    OfEdits,
    OfShows,
}

/// Whether such an object may have a key.
pub(crate) fn is_known(object: LineObject, key: &str) -> bool
    ensures { result ≡ spec.is_known object key.now }
{
    match object {
        LineObject::Whole => matches!(
            key,
            "id" | "crates" | "skipped" | "edition" | "start" | "edits" | "shows"
        ),
        LineObject::OfEdits => matches!(
            key,
            "edit"
                | "file"
                | "block"
                | "crate"
                | "syntax"
                | "attrs"
                | "stmts"
                | "tail"
                | "cfg"
                | "text"
                | "range"
        ),
        LineObject::OfShows => matches!(
            key,
            "show" | "crate" | "file" | "block" | "since" | "as" | "name" | "units" | "members"
        ),
    }
}

fn is_absent(value: &Value) -> bool
    ensures { result ≡ is_none (unless_null (view value.now)) }
{
    matches!(value, Value::Null)
}

// The key of the first member that no such object has. A null counts as absent.
fn unknown_key(object: LineObject, members: &Members) -> Option<&str>
    ensures { option_map (λ key. key.now) result
        ≡ spec.unknown_key object (members_view members.now.entries) }
{
    for (key, member) in members.iter() {
        if !is_absent(member) && !is_known(object, key.as_str()) {
            return Some(key.as_str());
        }
    }
    None
}

/// Whether the members of an object have its keys alone.
///
/// `WrongForm` comes only where one has another, and tells the first.
pub(crate) fn only_known(alloc: Global, members: &Members, object: LineObject) -> Result<(), Fault>
    ensures { Reads (λ _. tt) result (only_known object (object_held members.now)) }
{
    match unknown_key(object, members) {
        Some(key) => Err(Fault::at(alloc, key)),
        None => Ok(()),
    }
}

/// No member at this key.
///
/// `WrongForm` comes only where there is one, and tells it.
pub(crate) fn none_in(alloc: Global, members: &Members, key: &str) -> Result<(), Fault>
    ensures { Reads (λ _. tt) result (none_at key.now (object_held members.now)) }
{
    match field(members, key) {
        Some(_) => Err(Fault::at(alloc, key)),
        None => Ok(()),
    }
}
