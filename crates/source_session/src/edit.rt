//! Edits of a line, read from their forms.
ghost use Rattle.std.specs.Prelude.{◌≡◌, ◌^◌, ℕ, IfOk, codes, string_bytes};
ghost use Rattle.serde_json.specs.View.{view};
ghost use Rattle.hir_input_json.specs.Forms.{required_at as required_form, whole_form};
ghost use Rattle.hir_input_json.specs.Held.{object_held};
ghost use Rattle.hir_input_json.specs.Reads.{Reads};
ghost use Rattle.source_session.specs.Edits.{edit_form as edit_form, line_edit, text_edit, change_edit};
ghost use Rattle.source_session.specs.Edits.{range as range_form, short_text, IsUsable, IsShort};
ghost use Rattle.text_session.specs.Edits.{text_edit_view};

use crate::keys::{LineObject, Members, only_known};
use hir_input::HirFileId;
use hir_input_json::float::has_float;
use hir_input_json::member::{field, id_at, members_of, take_member, word_at};
use hir_input_json::{Fault, ReadIn};
use item_tree_request::request::edit::edit_in;
use rust_items::TextRange;
use serde_json::Value;
use std::alloc::Global;
use text_session::{MOST_BYTES, TextEdit};

// Takes a text of at most 2^32 bytes out.
fn text_at(alloc: Global, members: &mut Members) -> Result<String, Fault>
    ensures reads { Reads string_bytes result
        (required_form (codes "text") short_text (object_held members.old)) }
    ensures short { IfOk result (λ text. IsShort (string_bytes text)) }
{
    match take_member(members, "text") {
        Some(Value::String(text)) => {
            if text.len() > MOST_BYTES {
                return Err(Fault::at(alloc, "text"));
            }
            Ok(text)
        }
        _ => Err(Fault::at(alloc, "text")),
    }
}

fn set_text_of(alloc: Global, members: &mut Members) -> Result<TextEdit, Fault>
    ensures reads { Reads text_edit_view result (text_edit (object_held members.old)) }
    ensures usable { (count : ℕ) → IfOk result (IsUsable count) }
{
    let file = HirFileId(id_at(alloc, members, "file")?);
    let text = text_at(alloc, members)?;
    Ok(TextEdit::SetText { file, text })
}

// A place in a text.
fn place_of(alloc: Global, value: &Value) -> Result<usize, Fault>
    ensures { Reads (λ place. place) result (whole_form (2 ^ 64) (view value.now)) }
{
    let place = value.as_u64().ok_or_else(|| Fault::here(alloc))?;
    Ok(place as usize)
}

fn range_of(alloc: Global, value: &Value) -> Result<TextRange, Fault>
    ensures { Reads (λ range. range) result (range_form (view value.now)) }
{
    let Some(items) = value.as_array() else {
        return Err(Fault::here(alloc));
    };
    match items.as_slice() {
        [start, end] => {
            let start = place_of(alloc, start).in_item(alloc, 0)?;
            let end = place_of(alloc, end).in_item(alloc, 1)?;
            Ok(TextRange { start, end })
        }
        _ => Err(Fault::here(alloc)),
    }
}

fn range_at(alloc: Global, members: &Members) -> Result<TextRange, Fault>
    ensures { Reads (λ range. range) result
        (required_form (codes "range") range_form (object_held members.now)) }
{
    match field(members, "range") {
        Some(found) => range_of(alloc, found).in_member(alloc, "range"),
        None => Err(Fault::at(alloc, "range")),
    }
}

fn change_text_of(alloc: Global, members: &mut Members) -> Result<TextEdit, Fault>
    ensures reads { Reads text_edit_view result (change_edit (object_held members.old)) }
    ensures usable { (count : ℕ) → IfOk result (IsUsable count) }
{
    let file = HirFileId(id_at(alloc, members, "file")?);
    let range = range_at(alloc, members)?;
    let text = text_at(alloc, members)?;
    Ok(TextEdit::ChangeText { file, range, text })
}

// An edit of a table of this many crates, whose members are taken out.
fn members_edit(alloc: Global, members: &mut Members, count: usize) -> Result<TextEdit, Fault>
    ensures reads { Reads text_edit_view result (edit_form count (object_held members.old)) }
    ensures usable { IfOk result (IsUsable count) }
{
    only_known(alloc, members, LineObject::OfEdits)?;
    match word_at(alloc, members, "edit")? {
        "set_text" => set_text_of(alloc, members),
        "change_text" => change_text_of(alloc, members),
        _ => Ok(TextEdit::Table(edit_in(alloc, members, count)?)),
    }
}

/// An edit of a table of this many crates.
///
/// `WrongForm` comes only where it is not of its form (`Edits.line_edit`), and tells where.
pub(crate) fn edit_of(alloc: Global, value: Value, count: usize) -> Result<TextEdit, Fault>
    ensures reads { Reads text_edit_view result (line_edit count (view value)) }
    ensures usable { IfOk result (IsUsable count) }
{
    if has_float(&value) {
        return Err(Fault::here(alloc));
    }
    let mut members = members_of(alloc, value)?;
    members_edit(alloc, &mut members, count)
}
