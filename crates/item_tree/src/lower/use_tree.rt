//! Lowering of use trees.
ghost use Rattle.std.specs.Prelude.{◌≡◌, ◌+◌, ◌++◌, ◌<◌, ◌≤◌, ◌↔◌, IsTrue, IfOk, IfErr, OnOk, IfSome, MatchOption};
ghost use Rattle.std.specs.Prelude.{length, map, option_map, option_copied, Some};
ghost use Rattle.hir_input.specs.declared.ast.PathNode.TheVariants.{Unreadable};
ghost use Rattle.hir_input.specs.UseTreeView.{bare_tree, use_node, use_tree_view, use_trees_view, written_count};
ghost use Rattle.hir_input.specs.UseTreeView.{all_written_nodes};
ghost use Rattle.item_tree.specs.Tree.{tree_of, trees_of};
ghost use Rattle.item_tree.specs.KeptUse.{alias_of, kept_prefix, kept_tree, kept_trees, kept_places, all_kept_places};
ghost use Rattle.item_tree.specs.KeptUse.{use_tree_limit, ArePlacesOf};
ghost use Rattle.item_tree.specs.Imports.{imports, supers_in, most_supers, all_most_supers, super_limit};
ghost use Rattle.item_tree.specs.Leaves.{AreWritten};
ghost use Rattle.item_tree.specs.Size.{IsUseFault};
ghost use Rattle.item_tree.specs.UseItem.{UseFits};
ghost use Rattle.item_tree.specs.Lowered.{lowered_tree, IfKept};

use crate::fault::LowerError;
use crate::use_tree::{ImportAlias, UseTree, UseTreeKind};
use hir_input::{ModPath, PathKind, ast};
use std::alloc::{AllocError, Global};

/// What is kept of a written use tree, and for each kept node the place of the written one that it is kept from;
/// `None` where the root is dropped. rust-analyzer's `lower_use_tree`.
///
/// A node with a list is kept with its path, if one is written, as the prefix, and a star or a rename beside the list
/// is ignored. A node without a list is kept where a path or a star is written, unless a rename stands beside the
/// star; a rename without a name is `_`. A node whose path is unreadable is dropped, with all below it. Kept nodes and
/// written ones are counted each before those below it, the root as 0.
///
/// # Errors
///
/// If the root is kept: `TooManyUseTrees` where more than 2^32 - 1 nodes are written, `TooManySupers` where `super`
/// stands more than 2^32 - 1 times in the kept paths from the root to a node, and `OutOfMemory`.
pub fn lower_use_tree(
    alloc: Global,
    node: &ast::UseTree,
) -> Result<Option<(UseTree, Vec<u32>)>, LowerError>
    ensures kept { IfOk result
        (λ lowered. lowered_tree lowered ≡ kept_tree (use_tree_view node.now)) }
    ensures places { IfKept result
        (λ tree places. places ≡ kept_places 0 (use_tree_view node.now)) }
    ensures written { IfKept result
        (λ tree places. ArePlacesOf (use_tree_view node.now) places tree) }
    ensures leaves { IfKept result
        (λ tree places. AreWritten (use_tree_view node.now) places (imports tree)) }
    ensures count { IfKept result
        (λ tree places. written_count (use_tree_view node.now) ≤ use_tree_limit) }
    ensures fits { IfKept result (λ tree places. UseFits tree) }
    ensures fault { IfErr result (IsUseFault (use_tree_view node.now)) }
{
    if count_written(node).is_none() {
        // So many have a list above them: the path of the root tells whether it is kept.
        if has_unreadable_path(node) {
            return Ok(None);
        }
        return Err(LowerError::TooManyUseTrees);
    }
    let mut places = Vec::new(alloc);
    let mut next = 0u32;
    let Some(tree) = lower_node(alloc, node, &mut next, &mut places)? else {
        return Ok(None);
    };
    if !has_room_for_supers(&tree, 0) {
        return Err(LowerError::TooManySupers);
    }
    Ok(Some((tree, places)))
}

// How many nodes are written, if 32 bits hold their number.
#[cycle(count)]
#[tactic(auto, using(crate::proofs::WrittenNodes::view_listed))]
fn count_written(node: &ast::UseTree) -> Option<u32>
    ensures { MatchOption result (use_tree_limit < written_count (use_tree_view node.now))
        (λ n. n ≡ written_count (use_tree_view node.now)) }
{
    match &node.list {
        None => Some(1),
        Some(list) => {
            let below = count_all_written(list)?;
            below.checked_add(1)
        }
    }
}

// The same of several.
#[cycle(count)]
fn count_all_written(nodes: &[ast::UseTree]) -> Option<u32>
    ensures { MatchOption result
        (use_tree_limit < length (all_written_nodes (use_trees_view nodes.now)))
        (λ n. n ≡ length (all_written_nodes (use_trees_view nodes.now))) }
{
    let mut count = 0u32;
    for node in nodes {
        count = count.checked_add(count_written(node)?)?;
    }
    Some(count)
}

fn has_unreadable_path(node: &ast::UseTree) -> bool
    ensures { IsTrue result ↔ ((use_node (use_tree_view node.now)).path ≡ Some Unreadable) }
{
    matches!(node.path, Some(ast::PathNode::Unreadable))
}

// What is kept of a node and of those below it, whose places are added. The next place moves behind all of them.
#[cycle(lower_use)]
#[tactic(auto, using(crate::proofs::WrittenNodes::view_listed, std::proofs::Common::append_assoc))]
fn lower_node(
    alloc: Global,
    node: &ast::UseTree,
    next: &mut u32,
    places: &mut Vec<u32>,
) -> Result<Option<UseTree>, AllocError>
    requires { next.old + written_count (use_tree_view node.now) ≤ use_tree_limit }
    ensures counted { OnOk result (next.new ≡ next.old + written_count (use_tree_view node.now)) }
    ensures kept { IfOk result (λ tree.
        option_map tree_of tree ≡ kept_tree (use_tree_view node.now)) }
    ensures placed { OnOk result
        (places.new.items ≡ places.old.items ++ kept_places next.old (use_tree_view node.now)) }
{
    let here = *next;
    let Some(list) = &node.list else {
        *next += 1;
        let Some(tree) = lower_bare(node)? else {
            return Ok(None);
        };
        places.push(here)?;
        return Ok(Some(tree));
    };
    let Some(prefix) = lower_prefix(node)? else {
        // It was counted already with the root, and passes no limit.
        if let Some(count) = count_written(node) {
            *next += count;
        }
        return Ok(None);
    };
    places.push(here)?;
    *next += 1;
    let trees = lower_list(alloc, list, next, places)?;
    Ok(Some(UseTree::prefixed(prefix, trees)))
}

// The same of several.
#[cycle(lower_use)]
fn lower_list(
    alloc: Global,
    nodes: &[ast::UseTree],
    next: &mut u32,
    places: &mut Vec<u32>,
) -> Result<Vec<UseTree>, AllocError>
    requires { next.old + length (all_written_nodes (use_trees_view nodes.now)) ≤ use_tree_limit }
    ensures counted { OnOk result
        (next.new ≡ next.old + length (all_written_nodes (use_trees_view nodes.now))) }
    ensures kept { IfOk result (λ trees.
        map tree_of trees.items ≡ kept_trees (use_trees_view nodes.now)) }
    ensures placed { OnOk result
        (places.new.items ≡ places.old.items ++ all_kept_places next.old (use_trees_view nodes.now)) }
{
    let mut trees = Vec::new(alloc);
    for node in nodes {
        if let Some(tree) = lower_node(alloc, node, next, places)? {
            trees.push(tree)?;
        }
    }
    Ok(trees)
}

// What is kept of a node without a list.
fn lower_bare(node: &ast::UseTree) -> Result<Option<UseTree>, AllocError>
    ensures { IfOk result (λ tree.
        option_map tree_of tree ≡ kept_tree (bare_tree (use_node (use_tree_view node.now)))) }
{
    match &node.path {
        Some(ast::PathNode::Unreadable) => Ok(None),
        Some(ast::PathNode::Readable(path)) => {
            if !node.star {
                let alias = lower_alias(node.rename.as_ref())?;
                return Ok(Some(UseTree::single(path.clone()?, alias)));
            }
            if node.rename.is_some() {
                return Ok(None);
            }
            Ok(Some(UseTree::glob(Some(path.clone()?))))
        }
        None => {
            if !node.star || node.rename.is_some() {
                return Ok(None);
            }
            Ok(Some(UseTree::glob(None)))
        }
    }
}

pub(super) fn lower_alias(rename: Option<&ast::Rename>) -> Result<Option<ImportAlias>, AllocError>
    ensures { IfOk result (λ alias. alias ≡ alias_of (option_copied rename.entry)) }
{
    match rename {
        None => Ok(None),
        Some(rename) => match &rename.name {
            None => Ok(Some(ImportAlias::Underscore)),
            Some(name) => Ok(Some(ImportAlias::Alias(name.clone()?))),
        },
    }
}

// The prefix of a node with a list, if it is kept.
fn lower_prefix(node: &ast::UseTree) -> Result<Option<Option<ModPath>>, AllocError>
    ensures { IfOk result (λ prefix.
        prefix ≡ kept_prefix (use_node (use_tree_view node.now)).path) }
{
    match &node.path {
        None => Ok(Some(None)),
        Some(ast::PathNode::Unreadable) => Ok(None),
        Some(ast::PathNode::Readable(path)) => Ok(Some(Some(path.clone()?))),
    }
}

// Whether 32 bits count `super` in the paths from a node to each below it, with so many above.
#[cycle(supers)]
fn has_room_for_supers(tree: &UseTree, above: u32) -> bool
    ensures { IsTrue result ↔ (most_supers above (tree_of tree.now) ≤ super_limit) }
{
    match tree.kind() {
        UseTreeKind::Single { path, .. } => with_supers(above, Some(path)).is_some(),
        UseTreeKind::Glob { path } => with_supers(above, path.as_ref()).is_some(),
        UseTreeKind::Prefixed { prefix, list } => match with_supers(above, prefix.as_ref()) {
            None => false,
            Some(supers) => all_have_room_for_supers(list, supers),
        },
    }
}

// The same of several.
#[cycle(supers)]
#[tactic(auto, using(crate::proofs::KeptCounts::count_in))]
fn all_have_room_for_supers(trees: &[UseTree], above: u32) -> bool
    ensures { IsTrue result ↔ (all_most_supers above (trees_of trees.now) ≤ super_limit) }
{
    for tree in trees {
        if !has_room_for_supers(tree, above) {
            return false;
        }
    }
    true
}

// So many, and those of a path, if 32 bits hold their number.
fn with_supers(above: u32, path: Option<&ModPath>) -> Option<u32>
    ensures { MatchOption result (super_limit < above + supers_in (option_copied path.entry))
        (λ n. n ≡ above + supers_in (option_copied path.entry)) }
{
    match path.map(ModPath::kind) {
        Some(PathKind::Super(count)) => above.checked_add(count),
        _ => Some(above),
    }
}
