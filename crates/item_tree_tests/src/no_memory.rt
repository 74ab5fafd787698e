//! A tree of items of all kinds, read where no memory is left.
use crate::lowered::tree_of_all_kinds;
use crate::samples::memory::{leave_again, leave_none};
use item_tree::{
    ItemTree, ItemTreeDataStats, LowerError, ModItemId, ModItemKind, RawVisibility, Struct, Use,
    UseTreeKind,
};
use std::alloc::Global;
use tree_walk::children;

const STATS: ItemTreeDataStats = ItemTreeDataStats {
    traits: 1,
    impls: 1,
    mods: 3,
    macro_calls: 1,
    macro_rules: 1,
};

// Whether the use's visibility is lent, and the list below its prefix.
fn is_use_lent(tree: &ItemTree, item: &Use) -> bool {
    let visibility = item.visibility();
    if !tree.has_visibility(visibility) {
        return false;
    }
    match (&tree[visibility], item.use_tree().kind()) {
        (RawVisibility::PubSelf(explicitness), UseTreeKind::Prefixed { list, .. }) => {
            !explicitness.is_explicit() && list.len() == 3
        }
        _ => false,
    }
}

fn is_struct_lent(item: &Struct) -> bool {
    item.name.text() == "S" && item.shape.has_value_ns_ctor()
}

// Whether an item is lent, with its hash.
fn is_lent(tree: &ItemTree, id: ModItemId) -> bool {
    if !tree.contains(id) || id.ast_id(tree).hash == 0 {
        return false;
    }
    match tree.index(id) {
        ModItemKind::Use(_, item) => is_use_lent(tree, item),
        ModItemKind::Struct(_, item) => is_struct_lent(item),
        _ => true,
    }
}

fn are_lent(tree: &ItemTree, ids: &[ModItemId]) -> bool {
    for id in ids {
        if !is_lent(tree, *id) {
            return false;
        }
    }
    true
}

// Whether the module at the top, its items and its attributes are lent.
fn is_module_lent(tree: &ItemTree, id: ModItemId) -> bool {
    tree.contains(id) && tree.attrs(id).is_some() && are_lent(tree, children(tree, id))
}

// Whether a tree is read as it is. None of these calls takes memory.
fn is_read(tree: &ItemTree, twin: &ItemTree) -> bool {
    let top = tree.top_level_items();
    are_lent(tree, top)
        && !top.is_empty()
        && is_module_lent(tree, top[0])
        && tree.top_level_attrs().is_some()
        && tree.item_tree_stats() == STATS
        && *tree == *twin
}

fn is_file_read(alloc: Global) -> Result<bool, LowerError> {
    let tree = tree_of_all_kinds(alloc)?;
    let twin = tree_of_all_kinds(alloc)?;
    leave_none(alloc)?;
    let is_read = is_read(&tree, &twin) && ItemTree::empty(alloc) != *tree;
    leave_again(alloc)?;
    Ok(is_read)
}

#[test]
fn a_tree_is_read_where_no_memory_is_left(rt: HostRuntime) {
    assert!(rt; is_file_read(rt.alloc()).unwrap_or(false));
}
