//! Numbers that are held as floats.
ghost use Rattle.std.specs.Prelude.{◌≡◌};
ghost use Rattle.serde_json.specs.View.{view, items_view, members_view};
ghost use Rattle.serde_json.specs.Written.{has_float as holds_float, items_have_float as items_hold_float};
ghost use Rattle.serde_json.specs.Written.{members_have_float as members_hold_float};

use crate::member::Members;
use serde_json::Value;

/// Whether a number that is held as a float occurs anywhere in the value, also under keys that no form names.
#[inline(always)]
#[cycle(floats)]
pub fn has_float(value: &Value) -> bool
    ensures { result ≡ holds_float (view value.now) }
{
    match value {
        Value::Null | Value::Bool(_) | Value::String(_) => false,
        Value::Number(number) => number.is_f64(),
        Value::Array(items) => items_have_float(items),
        Value::Object(members) => members_have_float(members),
    }
}

#[inline(never)]
#[cycle(floats)]
fn items_have_float(items: &Vec<Value>) -> bool
    ensures { result ≡ items_hold_float (items_view items.now.items) }
{
    for item in items {
        if has_float(item) {
            return true;
        }
    }
    false
}

#[inline(never)]
#[cycle(floats)]
fn members_have_float(members: &Members) -> bool
    ensures { result ≡ members_hold_float (members_view members.now.entries) }
{
    for (_key, member) in members.iter() {
        if has_float(member) {
            return true;
        }
    }
    false
}
