//! Names, read from their texts.
ghost use Rattle.std.specs.Prelude.{◌≡◌, ◌≤◌, OnOk, string_bytes};
ghost use Rattle.std.specs.Vec.Iter.{into_iter_items};
ghost use Rattle.serde_json.specs.View.{view, items_view};
ghost use Rattle.hir_input_json.specs.Reading.{here};
ghost use Rattle.hir_input.specs.Name.{name_in};
ghost use Rattle.hir_input_json.specs.Forms.{maybe_at, identifier_form as name_form, each_from, list_at as each_at};
ghost use Rattle.hir_input_json.specs.Held.{IsLeftWithout, object_held};
ghost use Rattle.hir_input_json.specs.Reads.{Reads};

use crate::fault::{Fault, ReadIn};
use crate::member::{Members, list_at, maybe_of, take_member, text_of};
use hir_input::Name;
use serde_json::Value;
use std::alloc::Global;
use std::vec::IntoIter;

// A text that is not empty and holds no line feed.
pub(crate) fn name_from(alloc: Global, text: String) -> Result<Name, Fault>
    ensures { Reads (λ name. name) result (here (name_in (string_bytes text))) }
{
    Name::new(text).ok_or_else(|| Fault::here(alloc))
}

/// A name of its text.
///
/// `WrongForm` comes only where the value is no string, or one that is empty or holds a line feed.
pub fn name_of(alloc: Global, value: Value) -> Result<Name, Fault>
    ensures { Reads (λ name. name) result (name_form (view value)) }
{
    name_from(alloc, text_of(alloc, value)?)
}

// Takes a name out.
pub(crate) fn name_at(
    alloc: Global,
    members: &mut Members,
    key: &str,
) -> Result<Option<Name>, Fault>
    ensures reads { Reads (λ name. name) result (maybe_at key.now name_form (object_held members.old)) }
    ensures left { OnOk result (IsLeftWithout key.now members.old members.new) }
{
    maybe_of!(alloc, members, key, name_of)
}

// Each of the items, the first one with this number.
pub(crate) fn names_of(
    alloc: Global,
    items: IntoIter<Value>,
    first: usize,
) -> Result<Vec<Name>, Fault>
    requires { first ≤ 2 }
    ensures { Reads (λ v. v.items) result
        (each_from first name_form (items_view (into_iter_items items))) }
{
    let mut names = Vec::with_capacity(alloc, items.len())?;
    for item in items {
        let place = first + names.len();
        let read = name_of(alloc, item).in_item(alloc, place)?;
        names.push(read)?;
    }
    Ok(names)
}

/// Takes a list of names out, none where it is absent.
///
/// `WrongForm` comes only where the member is no list of strings, or one of them is empty or holds a line feed.
pub fn names_at(alloc: Global, members: &mut Members, key: &str) -> Result<Vec<Name>, Fault>
    ensures reads { Reads (λ v. v.items) result (each_at name_form key.now (object_held members.old)) }
    ensures left { OnOk result (IsLeftWithout key.now members.old members.new) }
{
    let items = list_at(alloc, members, key)?;
    names_of(alloc, items.into_iter(), 0).in_member(alloc, key)
}
