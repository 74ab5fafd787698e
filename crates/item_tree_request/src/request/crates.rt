//! Crates, read from their forms.
ghost use Rattle.std.specs.Prelude.{◌≡◌, OnOk, codes, map};
ghost use Rattle.serde_json.specs.View.{view, items_view};
ghost use Rattle.item_tree.specs.CrateView.{crate_view};
ghost use Rattle.item_tree_request.specs.Edits.{crate_data as crate_form};
ghost use Rattle.hir_input_json.specs.Forms.{each, list_at as each_at};
ghost use Rattle.hir_input_json.specs.Held.{IsLeftWithout, object_held};
ghost use Rattle.hir_input_json.specs.Reads.{Reads};

use hir_input::{CfgOptions, HirFileId};
use hir_input_json::atom::atoms_at;
use hir_input_json::member::{id_at, list_at, members_of};
use hir_input_json::meta::attrs_at;
use hir_input_json::{Fault, ReadIn};
use item_tree::CrateData;
use serde_json::{Map, Value};
use std::alloc::Global;

#[tactic(auto, using(hir_input_json::proofs::MemberObjects::field_without))]
fn crate_of(alloc: Global, value: Value) -> Result<CrateData, Fault>
    ensures { Reads crate_view result (crate_form (view value)) }
{
    let mut members = members_of(alloc, value)?;
    let root = HirFileId(id_at(alloc, &members, "root")?);
    let cfg = CfgOptions::new(atoms_at(alloc, &mut members, "cfg")?);
    let attrs = attrs_at(alloc, &mut members)?;
    Ok(CrateData { root, cfg, attrs })
}

fn crates_of(alloc: Global, items: Vec<Value>) -> Result<Vec<CrateData>, Fault>
    ensures { Reads (λ v. map crate_view v.items) result
        (each crate_form (items_view items.items)) }
{
    let mut crates = Vec::with_capacity(alloc, items.len())?;
    for item in items {
        let place = crates.len();
        let read = crate_of(alloc, item).in_item(alloc, place)?;
        crates.push(read)?;
    }
    Ok(crates)
}

/// Takes the crates out, none where they are absent.
///
/// `WrongForm` comes only where they are not of their form (`Edits.crate_data`), and tells where.
pub fn crates_at(alloc: Global, members: &mut Map<String, Value>) -> Result<Vec<CrateData>, Fault>
    ensures reads { Reads (λ v. map crate_view v.items) result
        (each_at crate_form (codes "crates") (object_held members.old)) }
    ensures left { OnOk result (IsLeftWithout (codes "crates") members.old members.new) }
{
    let items = list_at(alloc, members, "crates")?;
    crates_of(alloc, items).in_member(alloc, "crates")
}
