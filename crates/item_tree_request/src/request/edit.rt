//! Edits, read from their forms.
ghost use Rattle.std.specs.Prelude.{◌≡◌, All, IfOk, OnOk, codes, length, map};
ghost use Rattle.serde_json.specs.View.{view, items_view};
ghost use Rattle.hir_input.specs.Syntax.{syntax_view};
ghost use Rattle.item_tree_db.specs.Edits.{edit_view};
ghost use Rattle.item_tree.specs.CrateView.{crate_view};
ghost use Rattle.item_tree_request.specs.Edits.{edit as edit_form, set_cfg_edit};
ghost use Rattle.item_tree_request.specs.Named.{EditNamesCrate};
ghost use Rattle.hir_input_json.specs.Forms.{each, required_at as required_form, list_at as each_at};
ghost use Rattle.hir_input_json.specs.Syntaxes.{syntax as syntax_form};
ghost use Rattle.hir_input_json.specs.Held.{IsLeftWithout, object_held};
ghost use Rattle.hir_input_json.specs.Reads.{Reads};

use hir_input::ast::Syntax;
use hir_input::{BlockId, CfgOptions, Crate, HirFileId};
use hir_input_json::atom::atoms_at;
use hir_input_json::member::{id_at, list_at, members_of, required_at, word_at};
use hir_input_json::syntax::{block_in, syntax_of};
use hir_input_json::{Fault, ReadIn};
use item_tree::CrateData;
use item_tree_db::Edit;
use serde_json::{Map, Value};
use std::alloc::Global;

fn syntax_at(alloc: Global, members: &mut Map<String, Value>) -> Result<Syntax, Fault>
    ensures { Reads syntax_view result
        (required_form (codes "syntax") syntax_form (object_held members.old)) }
{
    let syntax = required_at(alloc, members, "syntax")?;
    syntax_of(alloc, syntax).in_member(alloc, "syntax")
}

#[tactic(auto, using(hir_input_json::proofs::MemberObjects::field_without))]
fn set_cfg_of(alloc: Global, members: &mut Map<String, Value>, count: usize) -> Result<Edit, Fault>
    ensures reads { Reads edit_view result (set_cfg_edit count (object_held members.old)) }
    ensures known { IfOk result (EditNamesCrate count) }
{
    let krate = id_at(alloc, members, "crate")?;
    if krate as usize >= count {
        return Err(Fault::at(alloc, "crate"));
    }
    let options = CfgOptions::new(atoms_at(alloc, members, "cfg")?);
    Ok(Edit::SetCfg {
        krate: Crate(krate),
        options,
    })
}

/// An edit of a table of this many crates, whose members are taken out.
///
/// `WrongForm` comes only where it is not of its form (`Edits.edit`), and tells where.
pub fn edit_in(alloc: Global, members: &mut Map<String, Value>, count: usize) -> Result<Edit, Fault>
    ensures reads { Reads edit_view result (edit_form count (object_held members.old)) }
    ensures known { IfOk result (EditNamesCrate count) }
{
    match word_at(alloc, members, "edit")? {
        "set_file" => Ok(Edit::SetFile {
            file: HirFileId(id_at(alloc, members, "file")?),
            syntax: syntax_at(alloc, members)?,
        }),
        "remove_file" => Ok(Edit::RemoveFile {
            file: HirFileId(id_at(alloc, members, "file")?),
        }),
        "set_block" => Ok(Edit::SetBlock {
            block: BlockId(id_at(alloc, members, "block")?),
            syntax: block_in(alloc, members)?,
        }),
        "remove_block" => Ok(Edit::RemoveBlock {
            block: BlockId(id_at(alloc, members, "block")?),
        }),
        "set_cfg" => set_cfg_of(alloc, members, count),
        _ => Err(Fault::at(alloc, "edit")),
    }
}

fn edit_of(alloc: Global, value: Value, count: usize) -> Result<Edit, Fault>
    ensures reads { Reads edit_view result (edit_form count (view value)) }
    ensures known { IfOk result (EditNamesCrate count) }
{
    let mut members = members_of(alloc, value)?;
    edit_in(alloc, &mut members, count)
}

fn edits_of(alloc: Global, items: Vec<Value>, count: usize) -> Result<Vec<Edit>, Fault>
    ensures reads { Reads (λ v. map edit_view v.items) result
        (each (edit_form count) (items_view items.items)) }
    ensures known { IfOk result (λ v. All (EditNamesCrate count) v.items) }
{
    let mut edits = Vec::with_capacity(alloc, items.len())?;
    for item in items {
        let place = edits.len();
        let read = edit_of(alloc, item, count).in_item(alloc, place)?;
        edits.push(read)?;
    }
    Ok(edits)
}

// Takes the edits of a table of these crates out.
pub(crate) fn edits_at(
    alloc: Global,
    members: &mut Map<String, Value>,
    crates: &Vec<CrateData>,
) -> Result<Vec<Edit>, Fault>
    ensures reads { Reads (λ v. map edit_view v.items) result
        (each_at (edit_form (length (map crate_view crates.now.items))) (codes "edits")
        (object_held members.old)) }
    ensures known { IfOk result (λ v. All (EditNamesCrate (length crates.now.items)) v.items) }
    ensures left { OnOk result (IsLeftWithout (codes "edits") members.old members.new) }
{
    let items = list_at(alloc, members, "edits")?;
    edits_of(alloc, items, crates.len()).in_member(alloc, "edits")
}
