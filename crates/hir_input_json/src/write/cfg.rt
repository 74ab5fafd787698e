//! Conditions as JSON.
ghost use Rattle.std.specs.Prelude.{◌≡◌, IfOk, map, string_bytes};
ghost use Rattle.serde_json.specs.View.{view};
ghost use Rattle.hir_input.specs.Cfg.{atom_view, cfg_view, cfgs_from};
ghost use Rattle.hir_input_json.specs.Cfgs.{atom as atom_form};
ghost use Rattle.hir_input_json.specs.Writing.Cfgs.{atom_data, cfg_data, cfgs_data, keyed_value};
ghost use Rattle.hir_input_json.specs.Writing.Held.{Holds};
ghost use Rattle.hir_input_json.specs.Writing.Writes.{Writes, WritesEach};

use crate::each_value;
use crate::write::fault::{WriteFault, Written};
use crate::write::name::name_value;
use crate::write::object::{of_text, one, with};
use hir_input::{CfgAtom, CfgExpr};
use serde_json::Value;
use std::alloc::{AllocError, Global};

fn key_object(alloc: Global, key: Value, value: &String) -> Result<Value, AllocError>
    ensures { IfOk result (λ v. view v ≡ keyed_value (view key) (string_bytes value.now)) }
{
    let members = of_text(alloc, "value", value.as_str())?;
    Ok(Value::Object(with(alloc, members, "key", key)?))
}

fn value_of(alloc: Global, atom: &CfgAtom) -> Written
    ensures { Writes view result (atom_data (atom_view atom.now)) }
{
    match atom {
        CfgAtom::Flag(name) => name_value(alloc, name),
        CfgAtom::KeyValue { key, value } => {
            let key = name_value(alloc, key)?;
            Ok(key_object(alloc, key, value)?)
        }
    }
}

/// An atom as JSON: the text of a flag, or an object with a key and its value. It is read as the atom again.
///
/// # Errors
///
/// Only if memory runs out.
pub fn atom_value(alloc: Global, atom: &CfgAtom) -> Result<Value, WriteFault>
    ensures written { Writes view result (atom_data (atom_view atom.now)) }
    ensures reads { IfOk result (λ v. Holds atom_form (atom_view atom.now) (view v)) }
{
    let value = value_of(alloc, atom)?;
    Ok(value)
}

#[cycle(cfgs)]
#[tactic(auto, using(hir_input::proofs::CfgLemmas::cfg_views))]
pub(crate) fn cfg_value(alloc: Global, cfg: &CfgExpr) -> Written
    ensures { Writes view result (cfg_data (cfg_view cfg.now)) }
{
    match cfg {
        CfgExpr::Invalid => Ok(Value::Null),
        CfgExpr::Atom(atom) => atom_value(alloc, atom),
        CfgExpr::All(members) => {
            let members = cfg_values(alloc, members)?;
            Ok(one(alloc, "all", Value::from(members))?)
        }
        CfgExpr::Any(members) => {
            let members = cfg_values(alloc, members)?;
            Ok(one(alloc, "any", Value::from(members))?)
        }
        CfgExpr::Not(inner) => {
            let inner = cfg_value(alloc, inner)?;
            Ok(one(alloc, "not", inner)?)
        }
    }
}

#[cycle(cfgs)]
#[tactic(auto, using(crate::proofs::Writing::Lists::lists))]
fn cfg_values(alloc: Global, members: &[CfgExpr]) -> Result<Vec<Value>, WriteFault>
    ensures { WritesEach result (cfgs_data (cfgs_from (map cfg_view members.now))) }
{
    each_value!(alloc, member in members, cfg_value(alloc, member))
}
