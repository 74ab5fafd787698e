//! Walks over an item tree by its public calls alone: the items that stand in an item, all items of a tree, each before
//! those that stand in it; rows of them, each with what it stands in, from which lists of items are made; outlines; and
//! what a name resolution collector takes from one tree, which is what each item declares, and in which module, and the
//! imports of a use.
#![tactic(auto)]

mod collector;
mod enabled;
mod imports;
mod laws;
mod lines;
mod names;
mod rows;
mod steps;
mod subject;

ghost use Rattle.std.specs.Prelude.{◌≡◌, ◌≢◌, ℕ, ◌↔◌, ◌+◌, IfOk, Some, map, sum_by, AllPairs, Contains};
ghost use Rattle.item_tree.specs.{Layout.node_at, Reach.all_ids, Reach.child_ids};
ghost use Rattle.item_tree.specs.{Shown.IsContained, Shown.StandFor, Walk.AreContained, Walk.children_at};
ghost use Rattle.item_tree.specs.{Walk.count_at};
ghost use Rattle.tree_walk.specs.Preorder.{preorder};

pub use collector::{Collected, Declaration, collect};
pub use enabled::{is_enabled, is_file_enabled};
pub use imports::{Listed, list_imports};
use item_tree::{ItemTree, ModItemId, ModItemKind, ModKind};
pub use lines::outline_text;
pub use names::{Declares, name_at, visibility_at};
pub use rows::{Row, item_rows};
use std::alloc::{AllocError, Global};
use steps::steps;
pub use subject::{Subject, subject_at};

/// The ids of the items that stand in an item, none where no item can.
#[tactic(auto, using(crate::proofs::StepIds::child_counts))]
pub fn children(tree: &ItemTree, id: ModItemId) -> &[ModItemId]
    requires { IsContained tree.now id }
    ensures ids { result.now ≡ child_ids tree.now id }
    ensures stand { StandFor tree.now result.now (children_at tree.now id) }
    ensures contained { AreContained tree.now result.now }
    ensures counts { count_at tree.now id ≡ 1 + sum_by (count_at tree.now) result.now }
{
    match tree.index(id) {
        ModItemKind::Mod(_, module) => match &module.kind {
            ModKind::Inline { items } => items.as_slice(),
            ModKind::Outline => &[],
        },
        ModItemKind::ExternBlock(_, block) => block.children.as_slice(),
        _ => &[],
    }
}

/// The ids of all items of a tree, each once, and before those that stand in it.
///
/// # Errors
///
/// Only if memory runs out.
pub fn preorder(alloc: Global, tree: &ItemTree) -> Result<Vec<ModItemId>, AllocError>
    ensures stand { IfOk result
        (λ ids. map (node_at tree.now.forest) ids.items ≡ map Some (preorder tree.now.forest)) }
    ensures ids { IfOk result (λ ids. ids.items ≡ all_ids tree.now) }
    ensures once { IfOk result (λ ids. AllPairs (λ i j. i ≢ j) ids.items) }
    ensures all { IfOk result (λ ids. (id : ℕ) → IsContained tree.now id ↔ Contains ids.items id) }
    ensures contained { IfOk result (λ ids. AreContained tree.now ids.items) }
{
    let steps = steps(alloc, tree)?;
    let mut found = Vec::with_capacity(alloc, steps.len())?;
    for step in &steps {
        found.push(step.id)?;
    }
    Ok(found)
}
