//! Members of an object by their keys, and the plain values that they hold.
ghost use Rattle.std.specs.Prelude.{◌≡◌, ◌^◌, [], None, false, MatchResult, OnOk, option_map, string_bytes};
ghost use Rattle.serde_json.specs.Find.{as_object, get as get_in};
ghost use Rattle.serde_json.specs.View.{view, items_view};
ghost use Rattle.hir_input_json.specs.Reading.{right};
ghost use Rattle.hir_input_json.specs.Forms.{field as field_of, required_at as required_form, optional_at, flag};
ghost use Rattle.hir_input_json.specs.Forms.{array_items, text_form, whole_form, number_form as id_form};
ghost use Rattle.hir_input_json.specs.Forms.{items_at as items_form};
ghost use Rattle.hir_input_json.specs.Held.{IsLeftWithout, object_held};
ghost use Rattle.hir_input_json.specs.Reads.{IsHere, Reads};

use crate::fault::{Fault, ReadIn};
use serde_json::{Map, Value};
use std::alloc::Global;

/// The members of an object by their keys.
pub type Members = Map<String, Value>;

/// The members of an object, by which its parts are read.
///
/// An error comes exactly where the value is no object.
pub fn members_of(alloc: Global, value: Value) -> Result<Members, Fault>
    ensures { MatchResult result (λ members. view value ≡ object_held members)
        (λ e. IsHere e × (as_object (view value) ≡ None)) }
{
    match value {
        Value::Object(members) => Ok(members),
        _ => Err(Fault::here(alloc)),
    }
}

// The items of an array.
pub(crate) fn array_of(alloc: Global, value: Value) -> Result<Vec<Value>, Fault>
    ensures { Reads (λ v. items_view v.items) result (array_items (view value)) }
{
    match value {
        Value::Array(items) => Ok(items),
        _ => Err(Fault::here(alloc)),
    }
}

/// Each of the values by the function that reads one; a fault is told of the array.
#[macro_export]
macro_rules! each_of {
    ($alloc:expr, $values:expr, $read:ident $(, $more:expr)*) => {{
        let mut done = Vec::with_capacity($alloc, $values.len())?;
        for item in $values {
            let place = done.len();
            let read = $read($alloc, item $(, $more)*).in_item($alloc, place)?;
            done.push(read)?;
        }
        Ok(done)
    }};
}

// The items of a list that may be absent, by the function that reads them.
macro_rules! maybe_list_of {
    ($alloc:expr, $list:expr, $read:ident) => {{
        let Some(list) = $list else {
            return Ok(None);
        };
        let items = array_of($alloc, list)?;
        Ok(Some($read($alloc, items)?))
    }};
}

// The member at this key, taken out, by the function that reads one; it may be absent.
macro_rules! maybe_of {
    ($alloc:expr, $members:expr, $key:expr, $read:ident $(, $more:expr)*) => {
        match take_member($members, $key) {
            Some(found) => Ok(Some($read($alloc, found $(, $more)*).in_member($alloc, $key)?)),
            None => Ok(None),
        }
    };
}

pub(crate) use maybe_list_of;
pub(crate) use maybe_of;

// The text of a string.
pub(crate) fn text_of(alloc: Global, value: Value) -> Result<String, Fault>
    ensures { Reads string_bytes result (text_form (view value)) }
{
    match value {
        Value::String(text) => Ok(text),
        _ => Err(Fault::here(alloc)),
    }
}

fn member_at<'v>(members: &'v Members, key: &str) -> Option<&'v Value>
    ensures { option_map (λ v. view v.now) result ≡ get_in key.now (object_held members.now) }
{
    members.get(key)
}

// Takes the member out, also if it is null, and leaves a null.
#[inline(always)]
pub(crate) fn remove_member(members: &mut Members, key: &str) -> Option<Value>
    ensures taken { option_map view result ≡ get_in key.now (object_held members.old) }
    ensures left { IsLeftWithout key.now members.old members.new }
{
    match members.get_mut(key) {
        Some(found) => Some(found.take()),
        None => None,
    }
}

/// The member, unless it is null.
///
/// A null counts as absent, as in every form but a condition's.
#[tactic(auto, unfolding(crate::specs::Forms::field))]
pub fn field<'v>(members: &'v Members, key: &str) -> Option<&'v Value>
    ensures { option_map (λ v. view v.now) result ≡ field_of key.now (object_held members.now) }
{
    match member_at(members, key) {
        Some(Value::Null) | None => None,
        Some(found) => Some(found),
    }
}

/// Takes the member out, unless it is null, and leaves a null.
#[inline(always)]
#[tactic(auto, unfolding(crate::specs::Forms::field))]
pub fn take_member(members: &mut Members, key: &str) -> Option<Value>
    ensures taken { option_map view result ≡ field_of key.now (object_held members.old) }
    ensures left { IsLeftWithout key.now members.old members.new }
{
    match remove_member(members, key) {
        Some(Value::Null) | None => None,
        Some(found) => Some(found),
    }
}

/// Takes a member out that has to be there.
///
/// `WrongForm` comes only where it is absent.
pub fn required_at(alloc: Global, members: &mut Members, key: &str) -> Result<Value, Fault>
    ensures reads { Reads view result (required_form key.now right (object_held members.old)) }
    ensures left { OnOk result (IsLeftWithout key.now members.old members.new) }
{
    take_member(members, key).ok_or_else(|| Fault::at(alloc, key))
}

/// The word that says which case of a form this is.
///
/// `WrongForm` comes only where the member is absent or no string.
pub fn word_at<'v>(alloc: Global, members: &'v Members, key: &str) -> Result<&'v str, Fault>
    ensures { Reads (λ word. word.now) result (required_form key.now text_form (object_held members.now)) }
{
    field(members, key)
        .and_then(Value::as_str)
        .ok_or_else(|| Fault::at(alloc, key))
}

// A truth value, false where it is absent.
pub(crate) fn flag_at(alloc: Global, members: &Members, key: &str) -> Result<bool, Fault>
    ensures { Reads (λ flag. flag) result (optional_at false key.now flag (object_held members.now)) }
{
    match field(members, key) {
        Some(found) => found.as_bool().ok_or_else(|| Fault::at(alloc, key)),
        None => Ok(false),
    }
}

// Takes a text out, empty where it is absent.
pub(crate) fn text_at(alloc: Global, members: &mut Members, key: &str) -> Result<String, Fault>
    ensures reads { Reads string_bytes result (optional_at [] key.now text_form (object_held members.old)) }
    ensures left { OnOk result (IsLeftWithout key.now members.old members.new) }
{
    match take_member(members, key) {
        Some(found) => text_of(alloc, found).in_member(alloc, key),
        None => Ok(String::new(alloc)),
    }
}

/// Takes the items of a list out, none where it is absent.
///
/// `WrongForm` comes only where the member is there and is no array. The errors of an item are for whoever reads it.
pub fn list_at(alloc: Global, members: &mut Members, key: &str) -> Result<Vec<Value>, Fault>
    ensures reads { Reads (λ v. items_view v.items) result (items_form key.now (object_held members.old)) }
    ensures left { OnOk result (IsLeftWithout key.now members.old members.new) }
{
    match take_member(members, key) {
        Some(list) => array_of(alloc, list).in_member(alloc, key),
        None => Ok(Vec::new(alloc)),
    }
}

// A whole number of 16 bits.
fn u16_of(alloc: Global, value: &Value) -> Result<u16, Fault>
    ensures { Reads (λ n. n) result (whole_form (2 ^ 16) (view value.now)) }
{
    let number = value.as_u64().ok_or_else(|| Fault::here(alloc))?;
    u16::try_from(number).ok().ok_or_else(|| Fault::here(alloc))
}

// A whole number of 32 bits.
pub(crate) fn u32_of(alloc: Global, value: &Value) -> Result<u32, Fault>
    ensures { Reads (λ n. n) result (whole_form (2 ^ 32) (view value.now)) }
{
    let number = value.as_u64().ok_or_else(|| Fault::here(alloc))?;
    u32::try_from(number).ok().ok_or_else(|| Fault::here(alloc))
}

// A whole number of 16 bits, 0 where it is absent.
pub(crate) fn u16_at(alloc: Global, members: &Members, key: &str) -> Result<u16, Fault>
    ensures { Reads (λ n. n) result (optional_at 0 key.now (whole_form (2 ^ 16)) (object_held members.now)) }
{
    match field(members, key) {
        Some(found) => u16_of(alloc, found).in_member(alloc, key),
        None => Ok(0),
    }
}

// A whole number of 32 bits, 0 where it is absent.
pub(crate) fn u32_at(alloc: Global, members: &Members, key: &str) -> Result<u32, Fault>
    ensures { Reads (λ n. n) result (optional_at 0 key.now (whole_form (2 ^ 32)) (object_held members.now)) }
{
    match field(members, key) {
        Some(found) => u32_of(alloc, found).in_member(alloc, key),
        None => Ok(0),
    }
}

/// An integer of 64 bits, 0 where it is absent.
///
/// `WrongForm` comes only where the member is there and is no such number, as where it is below 0 or held as a float.
pub fn u64_at(alloc: Global, members: &Members, key: &str) -> Result<u64, Fault>
    ensures { Reads (λ n. n) result (optional_at 0 key.now (whole_form (2 ^ 64)) (object_held members.now)) }
{
    match field(members, key) {
        Some(found) => found.as_u64().ok_or_else(|| Fault::at(alloc, key)),
        None => Ok(0),
    }
}

/// The number of a file, a block or a crate.
///
/// `WrongForm` comes only where the member is absent or no integer of 32 bits.
pub fn id_at(alloc: Global, members: &Members, key: &str) -> Result<u32, Fault>
    ensures { Reads (λ n. n) result (id_form key.now (object_held members.now)) }
{
    match field(members, key) {
        Some(found) => u32_of(alloc, found).in_member(alloc, key),
        None => Err(Fault::at(alloc, key)),
    }
}
