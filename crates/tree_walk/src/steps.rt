//! The walk: the items of a tree, each before those that stand in it, with what they stand in.
ghost use Rattle.std.specs.Prelude.{◌≡◌, ◌+◌, ◌<◌, ◌^◌, ◌++◌, ◌∷◌, [], All, IfOk, OnOk, map, option_copied, flat_map};
ghost use Rattle.std.specs.Prelude.{sum_by};
ghost use Rattle.item_tree.specs.Reach.{all_ids};
ghost use Rattle.item_tree.specs.{Shown.IsContained, Walk.AreContained, Walk.count_at, Walk.of_id};
ghost use Rattle.tree_walk.specs.Rows as rows;
ghost use Rattle.tree_walk.specs.Inner.Steps as spec;
ghost use Rattle.tree_walk.specs.Inner.Steps.{around_view, names_in, step_view, steps_at};

use crate::children;
use crate::enabled::{is_enabled, is_file_enabled};
use crate::names::name_at;
use hir_input::{AstIdKind, Name};
use item_tree::{ItemTree, ModItemId};
use std::alloc::{AllocError, Global};
use std::rc::Rc;

/// The names of modules, from the top on down, shared by all items that stand in these alone.
pub(crate) type Scope<'tree> = Rc<Vec<&'tree Name>>;

/// What items stand in.
#[derive(Drop)]
pub(crate) struct Around<'tree> {
    pub(crate) level: usize,
    pub(crate) scope: Scope<'tree>,
    pub(crate) is_active: bool,
}

/// An item, and what it stands in.
#[derive(Drop)]
pub(crate) struct Step<'tree> {
    pub(crate) id: ModItemId,
    pub(crate) around: Around<'tree>,
}

/// All items of a tree.
#[tactic(auto, using(item_tree::proofs::Walking::ids_contained, item_tree::proofs::Walking::ids_count))]
pub(crate) fn steps(alloc: Global, tree: &ItemTree) -> Result<Vec<Step<'_>>, AllocError>
    ensures all { IfOk result (λ v. map step_view v.items ≡ spec.steps tree.now) }
    ensures ids { IfOk result (λ v. map (λ s. s.id) v.items ≡ all_ids tree.now) }
    ensures contained { IfOk result (λ v. All (λ s. IsContained tree.now s.id) v.items) }
{
    let mut steps = Vec::new(alloc);
    let around = top(alloc, tree)?;
    push_all(alloc, tree, tree.top_level_items(), &around, &mut steps)?;
    Ok(steps)
}

/// What the items of a file stand in.
fn top<'tree>(alloc: Global, tree: &ItemTree) -> Result<Around<'tree>, AllocError>
    ensures { IfOk result (λ a. around_view a ≡ rows.top tree.now) }
{
    Ok(Around {
        level: 0,
        scope: Rc::new(alloc, Vec::new(alloc))?,
        is_active: is_file_enabled(tree),
    })
}

/// Adds items, and all that stand in them.
#[cycle(walk)]
fn push_all<'tree>(
    alloc: Global,
    tree: &'tree ItemTree,
    ids: &[ModItemId],
    around: &Around<'tree>,
    steps: &mut Vec<Step<'tree>>,
) -> Result<(), AllocError>
    requires contained { AreContained tree.now ids.now }
    requires fits { around.now.level + sum_by (count_at tree.now) ids.now < 2 ^ 64 }
    ensures { OnOk result (map step_view steps.new.items ≡ map step_view steps.old.items
        ++ flat_map (steps_at tree.now (around_view around.now)) ids.now) }
{
    for id in ids {
        push_one(alloc, tree, *id, around, steps)?;
    }
    Ok(())
}

/// Adds an item, and all that stand in it.
#[cycle(walk)]
fn push_one<'tree>(
    alloc: Global,
    tree: &'tree ItemTree,
    id: ModItemId,
    around: &Around<'tree>,
    steps: &mut Vec<Step<'tree>>,
) -> Result<(), AllocError>
    requires contained { IsContained tree.now id }
    requires fits { around.now.level + count_at tree.now id < 2 ^ 64 }
    ensures { OnOk result (map step_view steps.new.items ≡ map step_view steps.old.items
        ++ steps_at tree.now (around_view around.now) id) }
{
    push_step(id, around, steps)?;
    let ids = children(tree, id);
    if ids.is_empty() {
        return Ok(());
    }
    let below = around_below(alloc, tree, id, around)?;
    push_all(alloc, tree, ids, &below, steps)
}

fn push_step<'tree>(
    id: ModItemId,
    around: &Around<'tree>,
    steps: &mut Vec<Step<'tree>>,
) -> Result<(), AllocError>
    ensures { OnOk result (map step_view steps.new.items ≡ map step_view steps.old.items
        ++ (id, around_view around.now) ∷ []) }
{
    let around = Around {
        level: around.level,
        scope: around.scope.clone()?,
        is_active: around.is_active,
    };
    steps.push(Step { id, around })?;
    Ok(())
}

/// What the items in an item stand in.
fn around_below<'tree>(
    alloc: Global,
    tree: &'tree ItemTree,
    id: ModItemId,
    around: &Around<'tree>,
) -> Result<Around<'tree>, AllocError>
    requires contained { IsContained tree.now id }
    requires fits { around.now.level + 1 < 2 ^ 64 }
    ensures { IfOk result (λ a. around_view a ∷ []
        ≡ of_id tree.now [] (λ n. spec.around_below (around_view around.now) n ∷ []) id) }
{
    Ok(Around {
        level: around.level + 1,
        scope: scope_below(
            alloc,
            &around.scope,
            id.ast_id(tree).kind,
            name_at(tree, id),
        )?,
        is_active: around.is_active && is_enabled(tree, id),
    })
}

/// The names around what stands in an item of this kind and name.
fn scope_below<'tree>(
    alloc: Global,
    scope: &Scope<'tree>,
    kind: AstIdKind,
    name: Option<&'tree Name>,
) -> Result<Scope<'tree>, AllocError>
    ensures { let names = rows.scope_below (names_in scope.now.value) kind (option_copied name.entry) in
        IfOk result (λ s. names_in s.value ≡ names) }
{
    match (kind, name) {
        (AstIdKind::Module, Some(name)) => {
            let mut names = Vec::from_slice(alloc, scope.as_slice())?;
            names.push(name)?;
            Ok(Rc::new(alloc, names)?)
        }
        _ => scope.clone(),
    }
}
