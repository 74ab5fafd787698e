//! Use trees, read from their forms.
ghost use Rattle.std.specs.Prelude.{◌≡◌, OnOk, codes, map, option_map};
ghost use Rattle.serde_json.specs.View.{view, items_view};
ghost use Rattle.hir_input.specs.UseTreeView.{use_tree_view};
ghost use Rattle.hir_input_json.specs.Forms.{each, list_of, maybe, maybe_at};
ghost use Rattle.hir_input_json.specs.Held.{IsLeftWithout, object_held};
ghost use Rattle.hir_input_json.specs.Reads.{Reads};
ghost use Rattle.hir_input_json.specs.UseTrees.{rename_form as rename_form, use_tree_form as use_tree_form};
ghost use Rattle.hir_input_json.specs.UseTrees.{use_tree_with};

use crate::each_of;
use crate::fault::{Fault, ReadIn};
use crate::member::{
    Members, array_of, flag_at, maybe_list_of, maybe_of, members_of, take_member, text_of,
};
use crate::name::name_from;
use crate::path::path_at;
use hir_input::ast::{Rename, UseTree};
use serde_json::Value;
use std::alloc::Global;

fn rename_of(alloc: Global, value: Value) -> Result<Rename, Fault>
    ensures { Reads (λ rename. rename) result (rename_form (view value)) }
{
    let text = text_of(alloc, value)?;
    match text.as_str() {
        "_" => Ok(Rename { name: None }),
        _ => Ok(Rename {
            name: Some(name_from(alloc, text)?),
        }),
    }
}

// Takes a rename out.
pub(crate) fn rename_at(alloc: Global, members: &mut Members) -> Result<Option<Rename>, Fault>
    ensures reads { Reads (λ rename. rename) result
        (maybe_at (codes "rename") rename_form (object_held members.old)) }
    ensures left { OnOk result (IsLeftWithout (codes "rename") members.old members.new) }
{
    maybe_of!(alloc, members, "rename", rename_of)
}

#[cycle(trees)]
#[tactic(auto, using(crate::proofs::UseTrees::use_tree_reads_itself))]
fn use_tree_of(alloc: Global, value: Value) -> Result<UseTree, Fault>
    ensures { Reads use_tree_view result (use_tree_form (view value)) }
{
    let mut members = members_of(alloc, value)?;
    use_tree_in(alloc, &mut members)
}

#[cycle(trees)]
#[tactic(auto, using(crate::proofs::NestedForms::found_depths, crate::proofs::UseTrees::use_tree_view_made))]
fn use_tree_in(alloc: Global, members: &mut Members) -> Result<UseTree, Fault>
    ensures { Reads use_tree_view result (use_tree_with use_tree_form (object_held members.old)) }
{
    let path = path_at(alloc, members)?;
    let star = flag_at(alloc, members, "star")?;
    let rename = rename_at(alloc, members)?;
    let list = take_member(members, "list");
    let list = use_trees_in(alloc, list).in_member(alloc, "list")?;
    Ok(UseTree {
        path,
        star,
        rename,
        list,
    })
}

#[cycle(trees)]
#[tactic(auto, using(crate::proofs::NestedForms::depth_array))]
fn use_trees_in(alloc: Global, list: Option<Value>) -> Result<Option<Vec<UseTree>>, Fault>
    ensures { Reads (option_map (λ v. map use_tree_view v.items)) result
        (maybe (list_of use_tree_form) (option_map view list)) }
{
    maybe_list_of!(alloc, list, use_trees_of)
}

#[cycle(trees)]
fn use_trees_of(alloc: Global, items: Vec<Value>) -> Result<Vec<UseTree>, Fault>
    ensures { Reads (λ v. map use_tree_view v.items) result
        (each use_tree_form (items_view items.items)) }
{
    each_of!(alloc, items, use_tree_of)
}

// The use tree of a use, taken out.
pub(crate) fn use_tree_at(alloc: Global, members: &mut Members) -> Result<Option<UseTree>, Fault>
    ensures { Reads (option_map use_tree_view) result
        (maybe_at (codes "tree") use_tree_form (object_held members.old)) }
{
    maybe_of!(alloc, members, "tree", use_tree_of)
}
