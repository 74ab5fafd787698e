//! Use trees as JSON.
ghost use Rattle.std.specs.Prelude.{map, option_map};
ghost use Rattle.serde_json.specs.View.{view};
ghost use Rattle.hir_input.specs.UseTreeView.{trees_from, use_tree_view};
ghost use Rattle.hir_input_json.specs.Writing.Parts.{maybe_data};
ghost use Rattle.hir_input_json.specs.Writing.UseTrees.{rename_data, use_node_data, use_tree_data, use_trees_data};
ghost use Rattle.hir_input_json.specs.Writing.Writes.{Writes, WritesEach};

use crate::each_value;
use crate::write::fault::{WriteFault, Written};
use crate::write::name::name_value;
use crate::write::object::with;
use crate::write::path::path_or_null;
use crate::write::values::object;
use hir_input::ast::{PathNode, Rename, UseTree};
use serde_json::{Map, Value};
use std::alloc::Global;

fn rename_value(alloc: Global, rename: &Rename) -> Written
    ensures { Writes view result (rename_data rename.now) }
{
    match &rename.name {
        None => Ok(Value::try_from_str(alloc, "_")?),
        Some(name) => {
            if name.text() == "_" {
                return Err(WriteFault::NoForm);
            }
            name_value(alloc, name)
        }
    }
}

// Null where there is no rename.
pub(crate) fn rename_or_null(alloc: Global, rename: &Option<Rename>) -> Written
    ensures { Writes view result (maybe_data rename_data rename.now) }
{
    match rename {
        Some(rename) => rename_value(alloc, rename),
        None => Ok(Value::Null),
    }
}

// A use tree, whose list is written.
fn node_value(
    alloc: Global,
    path: &Option<PathNode>,
    star: bool,
    rename: &Option<Rename>,
    list: Value,
) -> Written
    ensures { Writes view result
        (use_node_data (record { path = path.now; star = star; rename = rename.now }) (view list)) }
{
    let path = path_or_null(alloc, path)?;
    let rename = rename_or_null(alloc, rename)?;
    let members = with(alloc, Map::new(alloc), "star", Value::from(star))?;
    Ok(object!(alloc, members, "list": list, "path": path, "rename": rename))
}

#[cycle(trees)]
#[tactic(auto, using(crate::proofs::Writing::UseTrees::use_tree_views))]
pub(crate) fn use_tree_value(alloc: Global, tree: &UseTree) -> Written
    ensures { Writes view result (use_tree_data (use_tree_view tree.now)) }
{
    match &tree.list {
        None => node_value(alloc, &tree.path, tree.star, &tree.rename, Value::Null),
        Some(trees) => {
            let trees = Value::from(use_tree_values(alloc, trees)?);
            node_value(alloc, &tree.path, tree.star, &tree.rename, trees)
        }
    }
}

#[cycle(trees)]
#[tactic(auto, using(crate::proofs::Writing::Lists::lists))]
fn use_tree_values(alloc: Global, trees: &[UseTree]) -> Result<Vec<Value>, WriteFault>
    ensures { WritesEach result (use_trees_data (trees_from (map use_tree_view trees.now))) }
{
    each_value!(alloc, tree in trees, use_tree_value(alloc, tree))
}

// The use tree of a use, null where there is none.
pub(crate) fn use_tree_or_null(alloc: Global, tree: &Option<UseTree>) -> Written
    ensures { Writes view result (maybe_data use_tree_data (option_map use_tree_view tree.now)) }
{
    match tree {
        Some(tree) => use_tree_value(alloc, tree),
        None => Ok(Value::Null),
    }
}
