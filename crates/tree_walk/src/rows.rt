//! Rows.
ghost use Rattle.std.specs.Prelude.{◌≡◌, ◌++◌, ◌∷◌, [], All, map, IfOk, OnOk, flat_map};
ghost use Rattle.item_tree.specs.Shown.{IsContained};
ghost use Rattle.tree_walk.specs.Rows as spec;
ghost use Rattle.tree_walk.specs.{Inner.Rows.step_row, Inner.Steps.step_view, Views.HasOwnUse, Views.row_view};

use crate::enabled::is_enabled;
use crate::names::{name_at, visibility_at};
use crate::steps::{Step, steps};
use crate::subject::{Subject, subject_at};
use hir_input::{FileAstId, Name};
use item_tree::{ItemTree, RawVisibility};
use std::alloc::{AllocError, Global};
use std::rc::Rc;

/// An item of a tree, and what it stands in.
#[derive(Debug)]
pub struct Row<'tree> {
    /// How many items it stands in.
    pub level: usize,
    /// The names of the modules that it stands in, from the top on down; items that stand in the same ones share them.
    pub scope: Rc<Vec<&'tree Name>>,
    pub id: FileAstId,
    pub name: Option<&'tree Name>,
    /// What it is told by if it has no name.
    pub subject: Subject<'tree>,
    pub visibility: Option<&'tree RawVisibility>,
    /// Whether no cfg disables it, nor an item that it stands in, nor the file.
    pub is_active: bool,
}

// (Written out: what is derived is proved anew, field by field, in each crate that drops one.)
impl Drop for Row<'_> {
    fn drop(self) {
        let Row {
            level: _,
            scope: _,
            id: _,
            name: _,
            subject: _,
            visibility: _,
            is_active: _,
        } = self;
    }
}

/// The rows of all items of a tree, each before those of the items in it.
///
/// # Errors
///
/// Only if memory runs out.
#[tactic(auto, using(crate::proofs::RowSteps::tree_rows))]
pub fn item_rows(alloc: Global, tree: &ItemTree) -> Result<Vec<Row<'_>>, AllocError>
    ensures rows { IfOk result (λ v. map row_view v.items ≡ spec.rows tree.now) }
    ensures visible { IfOk result (λ v. All (HasOwnUse tree.now) v.items) }
{
    let steps = steps(alloc, tree)?;
    rows_of(alloc, tree, &steps)
}

/// The rows of items.
fn rows_of<'tree>(
    alloc: Global,
    tree: &'tree ItemTree,
    steps: &[Step<'tree>],
) -> Result<Vec<Row<'tree>>, AllocError>
    requires { All (λ s. IsContained tree.now s.id) steps.now }
    ensures rows { IfOk result (λ v. map row_view v.items
        ≡ flat_map (step_row tree.now) (map step_view steps.now)) }
    ensures visible { IfOk result (λ v. All (HasOwnUse tree.now) v.items) }
{
    let mut rows = Vec::with_capacity(alloc, steps.len())?;
    for step in steps {
        push_row(tree, step, &mut rows)?;
    }
    Ok(rows)
}

fn push_row<'tree>(
    tree: &'tree ItemTree,
    step: &Step<'tree>,
    rows: &mut Vec<Row<'tree>>,
) -> Result<(), AllocError>
    requires { IsContained tree.now step.now.id }
    ensures row { OnOk result (map row_view rows.new.items ≡ map row_view rows.old.items
        ++ step_row tree.now (step_view step.now)) }
    ensures visible { OnOk result (All (HasOwnUse tree.now) rows.old.items
        → All (HasOwnUse tree.now) rows.new.items) }
{
    rows.push(row_of(tree, step)?)?;
    Ok(())
}

fn row_of<'tree>(tree: &'tree ItemTree, step: &Step<'tree>) -> Result<Row<'tree>, AllocError>
    requires { IsContained tree.now step.now.id }
    ensures row { IfOk result (λ r. row_view r ∷ [] ≡ step_row tree.now (step_view step.now)) }
    ensures visible { IfOk result (HasOwnUse tree.now) }
{
    let (id, around) = (step.id, &step.around);
    Ok(Row {
        level: around.level,
        scope: around.scope.clone()?,
        id: id.ast_id(tree),
        name: name_at(tree, id),
        subject: subject_at(tree, id),
        visibility: visibility_at(tree, id),
        is_active: around.is_active && is_enabled(tree, id),
    })
}
