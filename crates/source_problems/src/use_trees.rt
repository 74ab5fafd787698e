//! Use trees whose paths have no meaning.

ghost use Rattle.std.specs.Prelude.{OnOk};
ghost use Rattle.hir_input.specs.UseTreeView.{use_tree_view};
ghost use Rattle.source_problems.specs.Inner.{AddsHere};
ghost use Rattle.source_problems.specs.Items as spec;

use crate::problem::{Found, SourceProblemKind};
use hir_input::ast::UseTree;
use std::alloc::AllocError;

/// Adds a problem for each path of a use tree that has no meaning.
#[tactic(auto, using(crate::proofs::Views::use_tree_views, std::proofs::Common::append_assoc))]
pub(crate) fn push_tree(tree: &UseTree, found: &mut Found) -> Result<(), AllocError>
    ensures { OnOk result (AddsHere found.old found.new
        (spec.tree_problems found.old.at (use_tree_view tree.now))) }
{
    found.push_path(SourceProblemKind::UsePath, &tree.path)?;
    let Some(trees) = &tree.list else {
        return Ok(());
    };
    for tree in trees {
        push_tree(tree, found)?;
    }
    Ok(())
}
