//! What is told of items and members, as values of JSON.
ghost use Rattle.std.specs.Prelude.{◌≡◌, IfOk, OnErr, OnOk, option_copied};
ghost use Rattle.serde_json.specs.Data.{put as put_member, string};
ghost use Rattle.serde_json.specs.View.{members_view, view};
ghost use Rattle.tree_walk.specs.Views.{subject_view};
ghost use Rattle.source_listing.specs.Objects as spec;

use crate::lines::push_visible_in;
use crate::subjects::push_short_tree;
use hir_input::{Edition, Name};
use hir_input_json::member::Members;
use item_tree::{RawVisibility, VisibilityExplicitness};
use rust_paths::TextRange;
use serde_json::{Value, put};
use source_rows::Spot;
use std::alloc::{AllocError, Global};
use tree_walk::Subject;

/// A name, or null.
pub(crate) fn name_value(alloc: Global, name: Option<&Name>) -> Result<Value, AllocError>
    ensures { IfOk result (λ value. view value ≡ spec.name_form (option_copied name.entry)) }
{
    match name {
        None => Ok(Value::Null),
        Some(name) => Value::try_from_str(alloc, name.text()),
    }
}

/// The header of an impl; other items have none.
pub(crate) fn header_value(alloc: Global, header: &str) -> Result<Value, AllocError>
    ensures { IfOk result (λ value. view value ≡ spec.header_form header.now) }
{
    if header.is_empty() {
        return Ok(Value::Null);
    }
    Value::try_from_str(alloc, header)
}

/// What an item is told by if it has no name.
pub(crate) fn subject_value(
    alloc: Global,
    edition: &Edition,
    header: &str,
    subject: Subject<'_>,
) -> Result<Value, AllocError>
    ensures { let form = spec.subject_form edition.now.reserved.items header.now
        (subject_view subject.entry) in
        IfOk result (λ value. view value ≡ form) }
{
    match subject {
        Subject::Nothing => header_value(alloc, header),
        Subject::Use(item) => {
            let mut text = String::new(alloc);
            push_short_tree(edition, item.use_tree(), &mut text)?;
            Ok(Value::String(text))
        }
        Subject::Call(path) => Ok(Value::String(path.display(edition).to_string(alloc)?)),
    }
}

/// A visibility as it was written: a text, or null where none was.
///
/// # Errors
///
/// Only if memory runs out.
pub fn visibility_value(
    alloc: Global,
    edition: &Edition,
    visibility: Option<&RawVisibility>,
) -> Result<Value, AllocError>
    ensures { let reserved = edition.now.reserved.items in
        IfOk result (λ value. view value ≡ spec.visibility_form reserved (option_copied visibility.entry)) }
{
    match visibility {
        None | Some(RawVisibility::PubSelf(VisibilityExplicitness::Implicit)) => Ok(Value::Null),
        Some(RawVisibility::PubSelf(VisibilityExplicitness::Explicit)) => {
            Value::try_from_str(alloc, "pub(self)")
        }
        Some(RawVisibility::Public) => Value::try_from_str(alloc, "pub"),
        Some(RawVisibility::PubCrate) => Value::try_from_str(alloc, "pub(crate)"),
        Some(RawVisibility::Module(path, _)) => {
            let mut text = String::new(alloc);
            push_visible_in(edition, path, &mut text)?;
            Ok(Value::String(text))
        }
    }
}

/// The line of a spot, or null.
pub fn line_value(spot: Option<Spot>) -> Value
    ensures { view result ≡ spec.line_form spot }
{
    match spot {
        None => Value::Null,
        Some(spot) => Value::from(spot.position.line),
    }
}

/// The column of a spot, or null.
pub fn column_value(spot: Option<Spot>) -> Value
    ensures { view result ≡ spec.column_form spot }
{
    match spot {
        None => Value::Null,
        Some(spot) => Value::from(spot.position.column),
    }
}

/// Bytes, from where to where, or null.
///
/// # Errors
///
/// Only if memory runs out.
pub fn bytes_value(alloc: Global, range: Option<TextRange>) -> Result<Value, AllocError>
    ensures { IfOk result (λ value. view value ≡ spec.bytes_form range) }
{
    match range {
        None => Ok(Value::Null),
        Some(range) => {
            let mut ends = Vec::new(alloc);
            ends.push(Value::from(range.start))?;
            ends.push(Value::from(range.end))?;
            Ok(Value::Array(ends))
        }
    }
}

/// The bytes of a spot, from where to where, or null.
///
/// # Errors
///
/// Only if memory runs out.
pub fn range_value(alloc: Global, spot: Option<Spot>) -> Result<Value, AllocError>
    ensures { IfOk result (λ value. view value ≡ spec.range_form spot) }
{
    match spot {
        None => Ok(Value::Null),
        Some(spot) => bytes_value(alloc, Some(spot.range)),
    }
}

/// Adds a text to the members of an object.
///
/// # Errors
///
/// Only if memory runs out. Then the members stay as they were.
pub fn put_text(
    alloc: Global,
    key: &str,
    text: &str,
    members: &mut Members,
) -> Result<(), AllocError>
    ensures put { let old = members_view members.old.entries in
        OnOk result (members_view members.new.entries ≡ put_member key.now (string text.now) old) }
    ensures same { OnErr result (members_view members.new.entries
        ≡ members_view members.old.entries) }
{
    let text = Value::try_from_str(alloc, text)?;
    put(members, alloc, key, text)
}
