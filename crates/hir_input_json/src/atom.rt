//! Atoms of conditions, read from their forms.
ghost use Rattle.std.specs.Prelude.{◌≡◌, OnOk, map};
ghost use Rattle.serde_json.specs.View.{view, items_view};
ghost use Rattle.hir_input.specs.Cfg.{atom_view};
ghost use Rattle.hir_input_json.specs.Cfgs.{atom as atom_form, keyed_by};
ghost use Rattle.hir_input_json.specs.Forms.{each, list_at as each_at};
ghost use Rattle.hir_input_json.specs.Held.{IsLeftWithout, object_held};
ghost use Rattle.hir_input_json.specs.Reads.{Reads};

use crate::each_of;
use crate::fault::{Fault, ReadIn};
use crate::literal::required_text_at;
use crate::member::{Members, list_at, members_of, required_at};
use crate::name::name_of;
use hir_input::CfgAtom;
use serde_json::Value;
use std::alloc::Global;

// The atom of this key, with the value that the members hold.
pub(crate) fn keyed_atom_of(
    alloc: Global,
    key: Value,
    members: &mut Members,
) -> Result<CfgAtom, Fault>
    ensures { Reads atom_view result (keyed_by (view key) (object_held members.old)) }
{
    let key = name_of(alloc, key).in_member(alloc, "key")?;
    let value = required_text_at(alloc, members, "value")?;
    Ok(CfgAtom::KeyValue { key, value })
}

#[tactic(auto, using(crate::proofs::MemberObjects::field_without))]
pub(crate) fn atom_of(alloc: Global, value: Value) -> Result<CfgAtom, Fault>
    ensures { Reads atom_view result (atom_form (view value)) }
{
    if value.is_string() {
        return Ok(CfgAtom::Flag(name_of(alloc, value)?));
    }
    let mut members = members_of(alloc, value)?;
    let key = required_at(alloc, &mut members, "key")?;
    keyed_atom_of(alloc, key, &mut members)
}

fn atoms_of(alloc: Global, items: Vec<Value>) -> Result<Vec<CfgAtom>, Fault>
    ensures { Reads (λ v. map atom_view v.items) result (each atom_form (items_view items.items)) }
{
    each_of!(alloc, items, atom_of)
}

/// Takes a list of atoms out, none where it is absent: the options that are set in a crate.
///
/// `WrongForm` comes only where the list is not of its form (`Cfgs.atom`), and tells where.
pub fn atoms_at(alloc: Global, members: &mut Members, key: &str) -> Result<Vec<CfgAtom>, Fault>
    ensures reads { Reads (λ v. map atom_view v.items) result
        (each_at atom_form key.now (object_held members.old)) }
    ensures left { OnOk result (IsLeftWithout key.now members.old members.new) }
{
    let items = list_at(alloc, members, key)?;
    atoms_of(alloc, items).in_member(alloc, key)
}
