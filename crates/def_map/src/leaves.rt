//! How many leaves a use tree has.
ghost use Rattle.std.specs.Prelude.{◌≡◌, ◌≤◌};
ghost use Rattle.item_tree.specs.Inner.Expanding.{branch_count};
ghost use Rattle.item_tree.specs.KeptUse.{use_tree_limit};
ghost use Rattle.item_tree.specs.Tree.{tree_count, tree_of, trees_of};
ghost use Rattle.def_map.specs.UseLeaves as spec;

use item_tree::{UseTree, UseTreeKind};

/// How many leaves a use tree has.
#[cycle(leaves)]
#[tactic(auto, using(crate::proofs::LeafForms::leaf_forms))]
pub(crate) fn leaf_count(tree: &UseTree) -> u32
    requires { tree_count (tree_of tree.now) ≤ use_tree_limit }
    ensures { result ≡ spec.leaf_count (tree_of tree.now) }
{
    match tree.kind() {
        UseTreeKind::Single { .. } | UseTreeKind::Glob { .. } => 1,
        UseTreeKind::Prefixed { list, .. } => leaf_counts(list),
    }
}

/// How many several have.
#[cycle(leaves)]
#[tactic(auto, using(crate::proofs::LeafForms::leaf_forms))]
fn leaf_counts(trees: &[UseTree]) -> u32
    requires { branch_count (trees_of trees.now) ≤ use_tree_limit }
    ensures { result ≡ spec.leaf_counts (trees_of trees.now) }
{
    let mut count = 0;
    for branch in trees {
        count += leaf_count(branch);
    }
    count
}
