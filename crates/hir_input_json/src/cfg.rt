//! Conditions, read from their forms.
ghost use Rattle.std.specs.Prelude.{◌≡◌, OnOk, codes, map};
ghost use Rattle.serde_json.specs.View.{view, items_view};
ghost use Rattle.hir_input.specs.Cfg.{cfg_view};
ghost use Rattle.hir_input_json.specs.Cfgs.{cfg as cfg_form, cfg_by as cfg_by_form, cfg_with};
ghost use Rattle.hir_input_json.specs.Forms.{each, list_of};
ghost use Rattle.hir_input_json.specs.Held.{IsLeftWithout, object_held};
ghost use Rattle.hir_input_json.specs.Metas.{condition_at as condition_form};
ghost use Rattle.hir_input_json.specs.Reads.{Reads};

use crate::atom::{atom_of, keyed_atom_of};
use crate::each_of;
use crate::fault::{Fault, ReadIn};
use crate::member::{Members, array_of, members_of, remove_member, take_member};
use hir_input::CfgExpr;
use serde_json::Value;
use std::alloc::Global;

#[cycle(cfgs)]
#[tactic(auto, using(crate::proofs::Attrs::cfg_reads_itself))]
fn cfg_of(alloc: Global, value: Value) -> Result<CfgExpr, Fault>
    ensures { Reads cfg_view result (cfg_form (view value)) }
{
    cfg_in(alloc, value)
}

#[cycle(cfgs)]
#[tactic(auto, using(hir_input::proofs::CfgLemmas::cfg_views))]
fn cfg_in(alloc: Global, value: Value) -> Result<CfgExpr, Fault>
    ensures { Reads cfg_view result (cfg_with cfg_form (view value)) }
{
    if value.is_null() {
        return Ok(CfgExpr::Invalid);
    }
    if value.is_string() {
        return Ok(CfgExpr::Atom(atom_of(alloc, value)?));
    }
    let mut members = members_of(alloc, value)?;
    cfg_by(alloc, &mut members)
}

// A condition by the first key that it holds.
#[cycle(cfgs)]
#[tactic(auto, using(crate::proofs::NestedForms::got_depths, hir_input::proofs::CfgLemmas::cfg_views))]
fn cfg_by(alloc: Global, members: &mut Members) -> Result<CfgExpr, Fault>
    ensures { Reads cfg_view result (cfg_by_form cfg_form (object_held members.old)) }
{
    let inner = remove_member(members, "not");
    if let Some(key) = take_member(members, "key") {
        return Ok(CfgExpr::Atom(keyed_atom_of(alloc, key, members)?));
    }
    if let Some(list) = take_member(members, "all") {
        let cfgs = cfgs_in(alloc, list).in_member(alloc, "all")?;
        return Ok(CfgExpr::All(cfgs));
    }
    if let Some(list) = take_member(members, "any") {
        let cfgs = cfgs_in(alloc, list).in_member(alloc, "any")?;
        return Ok(CfgExpr::Any(cfgs));
    }
    match inner {
        Some(inner) => {
            let inner = cfg_of(alloc, inner).in_member(alloc, "not")?;
            Ok(CfgExpr::Not(Box::new(alloc, inner)?))
        }
        None => Err(Fault::here(alloc)),
    }
}

#[cycle(cfgs)]
#[tactic(auto, using(crate::proofs::NestedForms::depth_array))]
fn cfgs_in(alloc: Global, list: Value) -> Result<Vec<CfgExpr>, Fault>
    ensures { Reads (λ v. map cfg_view v.items) result (list_of cfg_form (view list)) }
{
    let items = array_of(alloc, list)?;
    cfgs_of(alloc, items)
}

#[cycle(cfgs)]
fn cfgs_of(alloc: Global, items: Vec<Value>) -> Result<Vec<CfgExpr>, Fault>
    ensures { Reads (λ v. map cfg_view v.items) result (each cfg_form (items_view items.items)) }
{
    each_of!(alloc, items, cfg_of)
}

// The condition of a meta, taken out, which cannot be read where it is absent.
pub(crate) fn condition_at(alloc: Global, members: &mut Members) -> Result<CfgExpr, Fault>
    ensures reads { Reads cfg_view result (condition_form (object_held members.old)) }
    ensures left { OnOk result (IsLeftWithout (codes "cfg") members.old members.new) }
{
    match remove_member(members, "cfg") {
        Some(found) => cfg_of(alloc, found).in_member(alloc, "cfg"),
        None => Ok(CfgExpr::Invalid),
    }
}
