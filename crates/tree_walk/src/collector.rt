//! What the items of a tree declare, in order.
ghost use Rattle.std.specs.Prelude.{◌≡◌, ◌≢◌, ◌++◌, All, filter, map, IfOk, OnOk, flat_map, AllPairs};
ghost use Rattle.item_tree.specs.Reach.{all_ids};
ghost use Rattle.item_tree.specs.Shown.{IsContained};
ghost use Rattle.item_tree.specs.Walk.{AreContained};
ghost use Rattle.tree_walk.specs.Declarations.{declarations, declared_at};
ghost use Rattle.tree_walk.specs.DeclarationView.{collected_declaration, declaration_view, declaration_id};
ghost use Rattle.tree_walk.specs.DeclarationView.{is_declaring, view_of, with_definition};
ghost use Rattle.tree_walk.specs.Inner.Declared.{own_in};
ghost use Rattle.tree_walk.specs.Inner.Steps.{step_view};

use crate::names::{Declares, declares_of, visibility_of};
use crate::steps::{Step, steps};
use hir_input::{AstIdKind, Name};
use item_tree::{ItemTree, ModItemId, RawVisibility};
use std::alloc::{AllocError, Global};
use std::rc::Rc;

/// An item that declares something.
#[derive(Debug, Drop)]
pub struct Declaration<'tree> {
    /// The names of the inline modules around it, from the top on down; items that stand in the same ones share them.
    pub path: Rc<Vec<&'tree Name>>,
    /// The item's id in the tree.
    pub id: ModItemId,
    pub kind: AstIdKind,
    /// A macro by example has none.
    pub visibility: Option<&'tree RawVisibility>,
    pub declares: Declares<'tree>,
}

/// What the items of a tree declare.
#[derive(Debug, Drop)]
pub struct Collected<'tree> {
    /// In the order in which they are written, at every depth through inline modules and extern blocks.
    pub declarations: Vec<Declaration<'tree>>,
}

/// Collects what each item of a tree declares: a name, or the imports of a use. Impls, macro calls, constants without a
/// name and extern crates as `_` declare nothing, and an extern block only what stands in it.
///
/// What rust-analyzer's `ModCollector::collect` passes over, without what it resolves.
///
/// # Errors
///
/// Only if memory runs out.
pub fn collect(alloc: Global, tree: &ItemTree) -> Result<Collected<'_>, AllocError>
    ensures all { let all = map with_definition (declared_at tree.now) in
        IfOk result (λ c. map (collected_declaration tree.now) c.declarations.items ≡ all) }
    ensures declared { let all = map view_of (declarations tree.now.forest) in
        IfOk result (λ c. map (declaration_view tree.now) c.declarations.items ≡ all) }
    ensures ids { let ids = filter (is_declaring tree.now) (all_ids tree.now) in
        IfOk result (λ c. map declaration_id c.declarations.items ≡ ids) }
    ensures once { IfOk result (λ c. AllPairs (λ i j. i ≢ j) (map declaration_id c.declarations.items)) }
    ensures contained { IfOk result (λ c. AreContained tree.now (map declaration_id c.declarations.items)) }
{
    let steps = steps(alloc, tree)?;
    let declarations = declarations_of(alloc, tree, &steps)?;
    Ok(Collected { declarations })
}

/// What items themselves declare.
fn declarations_of<'tree>(
    alloc: Global,
    tree: &'tree ItemTree,
    steps: &[Step<'tree>],
) -> Result<Vec<Declaration<'tree>>, AllocError>
    requires { All (λ s. IsContained tree.now s.id) steps.now }
    ensures { let all = flat_map (own_in tree.now) (map step_view steps.now) in
        IfOk result (λ v. map (collected_declaration tree.now) v.items ≡ all) }
{
    let mut declarations = Vec::new(alloc);
    for step in steps {
        add_own(alloc, tree, step, &mut declarations)?;
    }
    Ok(declarations)
}

/// Adds what an item itself declares, if anything.
#[tactic(auto, using(crate::proofs::LentNames::own_one, crate::proofs::LentNames::own_none))]
fn add_own<'tree>(
    alloc: Global,
    tree: &'tree ItemTree,
    step: &Step<'tree>,
    found: &mut Vec<Declaration<'tree>>,
) -> Result<(), AllocError>
    requires { IsContained tree.now step.now.id }
    ensures { let shown = map (collected_declaration tree.now) in
        OnOk result (shown found.new.items ≡ shown found.old.items ++ own_in tree.now (step_view step.now)) }
{
    let (id, item) = (step.id, tree.index(step.id));
    let Some(declares) = declares_of(alloc, item)? else {
        return Ok(());
    };
    found.push(Declaration {
        path: step.around.scope.clone()?,
        id,
        kind: id.ast_id(tree).kind,
        visibility: visibility_of(tree, id, item),
        declares,
    })?;
    Ok(())
}
