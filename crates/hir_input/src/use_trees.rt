//! The nodes of a use tree.
ghost use Rattle.std.specs.Prelude.{◌≡◌, ◌+◌, length, MatchOption, Some, option_map, slice_get, flat_map};
ghost use Rattle.hir_input.specs.UseTreeView.{use_tree_view, written_nodes};

use crate::ast::UseTree;

// The node that stands `left` nodes on, or `None` with `left` less by the nodes that were passed.
#[cycle(find)]
#[tactic(auto, using(crate::proofs::UseTreeNodes::length_pieces_more))]
fn find_in<'a>(trees: &'a [UseTree], left: &mut u32) -> Option<&'a UseTree>
    ensures { let nodes = flat_map (λ t. written_nodes (use_tree_view t)) trees.now in
        MatchOption result (left.old ≡ left.new + length nodes)
        (λ t. slice_get nodes left.old ≡ Some (use_tree_view t.now)) }
{
    for tree in trees {
        if let Some(found) = find(tree, left) {
            return Some(found);
        }
    }
    None
}

// The same from a node on.
#[cycle(find)]
#[tactic(auto, using(crate::proofs::UseTreeNodes::node_steps))]
fn find<'a>(tree: &'a UseTree, left: &mut u32) -> Option<&'a UseTree>
    ensures { let nodes = written_nodes (use_tree_view tree.now) in
        MatchOption result (left.old ≡ left.new + length nodes)
        (λ t. slice_get nodes left.old ≡ Some (use_tree_view t.now)) }
{
    if *left == 0 {
        return Some(tree);
    }
    *left -= 1;
    match &tree.list {
        None => None,
        Some(list) => find_in(list, left),
    }
}

impl UseTree {
    /// The node at a place, or `None` past the last node. Each node is counted before those below it, so the tree
    /// itself is at 0. It takes no memory. In place of rust-analyzer's arena of `ast::UseTree`.
    pub fn at(&self, place: u32) -> Option<&UseTree>
        ensures { let nodes = written_nodes (use_tree_view self.now) in
            option_map (λ t. use_tree_view t.now) result ≡ slice_get nodes place }
    {
        let mut left = place;
        find(self, &mut left)
    }
}
