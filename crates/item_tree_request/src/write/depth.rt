//! Whether a value nests too deep.
ghost use Rattle.std.specs.Prelude.{◌≡◌};
ghost use Rattle.serde_json.specs.View.{view, items_view, members_view};
ghost use Rattle.item_tree_request.specs.Writing.Depths.{items_nest_past as items_past};
ghost use Rattle.item_tree_request.specs.Writing.Depths.{members_nest_past as members_past, nests_past as past};

use serde_json::{Map, Value};

// Whether arrays and objects nest deeper than this.
#[cycle(nests)]
pub(crate) fn nests_past(value: &Value, limit: u32) -> bool
    ensures { result ≡ past limit (view value.now) }
{
    match value {
        Value::Null | Value::Bool(_) | Value::String(_) | Value::Number(_) => false,
        Value::Array(items) => limit == 0 || items_nest_past(items, limit - 1),
        Value::Object(members) => limit == 0 || members_nest_past(members, limit - 1),
    }
}

#[cycle(nests)]
fn items_nest_past(items: &Vec<Value>, limit: u32) -> bool
    ensures { result ≡ items_past limit (items_view items.now.items) }
{
    for item in items {
        if nests_past(item, limit) {
            return true;
        }
    }
    false
}

#[cycle(nests)]
fn members_nest_past(members: &Map<String, Value>, limit: u32) -> bool
    ensures { result ≡ members_past limit (members_view members.now.entries) }
{
    for (_key, member) in members.iter() {
        if nests_past(member, limit) {
            return true;
        }
    }
    false
}
