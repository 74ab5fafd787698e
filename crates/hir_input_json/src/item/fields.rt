//! The fields of a struct, read from their forms.
ghost use Rattle.std.specs.Prelude.{◌≡◌, codes, map};
ghost use Rattle.serde_json.specs.View.{view, items_view};
ghost use Rattle.hir_input.specs.Syntax.{fields_view};
ghost use Rattle.hir_input_json.specs.Forms.{each, required_at as required_form};
ghost use Rattle.hir_input_json.specs.Held.{object_held};
ghost use Rattle.hir_input_json.specs.Items.{fields_form as fields_form, tuple_field};
ghost use Rattle.hir_input_json.specs.Reads.{Reads};

use crate::each_of;
use crate::fault::{Fault, ReadIn};
use crate::member::{Members, array_of, required_at};
use crate::visibility::visibility_of;
use hir_input::ast::{StructKind, TupleField};
use serde_json::Value;
use std::alloc::Global;

// A null is a field without visibility.
fn tuple_field_of(alloc: Global, value: Value) -> Result<TupleField, Fault>
    ensures { Reads (λ f. f.visibility) result (tuple_field (view value)) }
{
    if value.is_null() {
        return Ok(TupleField { visibility: None });
    }
    let visibility = Some(visibility_of(alloc, value)?);
    Ok(TupleField { visibility })
}

fn tuple_fields_of(alloc: Global, items: Vec<Value>) -> Result<Vec<TupleField>, Fault>
    ensures { Reads (λ v. map (λ f. f.visibility) v.items) result
        (each tuple_field (items_view items.items)) }
{
    each_of!(alloc, items, tuple_field_of)
}

fn struct_kind_of(alloc: Global, value: Value) -> Result<StructKind, Fault>
    ensures { Reads fields_view result (fields_form (view value)) }
{
    match value.as_str() {
        Some("record") => Ok(StructKind::Record),
        Some("unit") => Ok(StructKind::Unit),
        Some(_) => Err(Fault::here(alloc)),
        None => {
            let items = array_of(alloc, value)?;
            Ok(StructKind::Tuple(tuple_fields_of(alloc, items)?))
        }
    }
}

pub(crate) fn struct_kind_at(alloc: Global, members: &mut Members) -> Result<StructKind, Fault>
    ensures { Reads fields_view result
        (required_form (codes "fields") fields_form (object_held members.old)) }
{
    let found = required_at(alloc, members, "fields")?;
    struct_kind_of(alloc, found).in_member(alloc, "fields")
}
