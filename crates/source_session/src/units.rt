//! What a show may say of how it is answered.
ghost use Rattle.std.specs.Prelude.{◌≡◌};
ghost use Rattle.serde_json.specs.View.{view};
ghost use Rattle.hir_input_json.specs.Forms.{flag};
ghost use Rattle.hir_input_json.specs.Held.{object_held};
ghost use Rattle.hir_input_json.specs.Reads.{Reads};
ghost use Rattle.source_session.specs.Units as spec;

use crate::keys::{Members, none_in};
use hir_input_json::member::field;
use hir_input_json::{Fault, ReadIn};
use line_index::Units;
use serde_json::Value;
use std::alloc::Global;

// What columns count, by its word.
fn units_of(alloc: Global, value: &Value) -> Result<Units, Fault>
    ensures { Reads (λ units. units) result (spec.units_form (view value.now)) }
{
    let Some(word) = value.as_str() else {
        return Err(Fault::here(alloc));
    };
    match word {
        "characters" => Ok(Units::Characters),
        "utf-16" => Ok(Units::Utf16),
        "bytes" => Ok(Units::Bytes),
        _ => Err(Fault::here(alloc)),
    }
}

/// What columns of an answer count.
///
/// `WrongForm` comes only where it is not of its form (`Units.units_at`), and tells where.
pub(crate) fn units_at(alloc: Global, members: &Members) -> Result<Units, Fault>
    ensures { Reads (λ units. units) result (spec.units_at (object_held members.now)) }
{
    match field(members, "units") {
        Some(found) => units_of(alloc, found).in_member(alloc, "units"),
        None => Ok(Units::Characters),
    }
}

fn flag_of(alloc: Global, value: &Value) -> Result<bool, Fault>
    ensures { Reads (λ is_set. is_set) result (flag (view value.now)) }
{
    match value.as_bool() {
        Some(is_set) => Ok(is_set),
        None => Err(Fault::here(alloc)),
    }
}

/// Whether members are asked for.
///
/// `WrongForm` comes only where it is not of its form (`Units.members_asked`), and tells where.
pub(crate) fn members_asked(alloc: Global, members: &Members) -> Result<bool, Fault>
    ensures { Reads (λ asked. asked) result (spec.members_asked (object_held members.now)) }
{
    match field(members, "members") {
        Some(found) => flag_of(alloc, found).in_member(alloc, "members"),
        None => Ok(false),
    }
}

/// The same where columns are told. Elsewhere there is no choice.
///
/// `WrongForm` comes only where there is one, or it is not of its form (`Units.units_if`), and tells where.
pub(crate) fn units_if(
    alloc: Global,
    members: &Members,
    tells_columns: bool,
) -> Result<Units, Fault>
    ensures { Reads (λ units. units) result (spec.units_if tells_columns (object_held members.now)) }
{
    if tells_columns {
        return units_at(alloc, members);
    }
    none_in(alloc, members, "units")?;
    Ok(Units::Characters)
}
