//! A copy of each item, of a module's kind and of a constructor is its source, or refused, and of two requests never
//! both are refused.
use crate::copies::is_copied;
use crate::lowered::{is_right, tree_of_all_kinds};
use item_tree::{ItemTree, LowerError, ModItemId, ModItemKind};
use std::alloc::{AllocError, Global};
use tree_walk::preorder;

fn is_item_copied(tree: &ItemTree, id: ModItemId) -> bool {
    if !tree.contains(id) {
        return false;
    }
    match tree.index(id) {
        ModItemKind::Const(_, item) => is_copied(item),
        ModItemKind::Enum(_, item) => is_copied(item),
        ModItemKind::ExternBlock(_, item) => is_copied(item),
        ModItemKind::ExternCrate(_, item) => is_copied(item),
        ModItemKind::Function(_, item) => is_copied(item),
        ModItemKind::Impl(_, item) => is_copied(item),
        ModItemKind::Macro2(_, item) => is_copied(item),
        ModItemKind::MacroCall(_, item) => is_copied(item),
        ModItemKind::MacroRules(_, item) => is_copied(item),
        ModItemKind::Mod(_, item) => is_copied(item) && is_copied(&item.kind),
        ModItemKind::Static(_, item) => is_copied(item),
        ModItemKind::Struct(_, item) => is_copied(item) && is_copied(&item.value_ns_ctor),
        ModItemKind::Trait(_, item) => is_copied(item),
        ModItemKind::TypeAlias(_, item) => is_copied(item),
        ModItemKind::Union(_, item) => is_copied(item),
        ModItemKind::Use(_, item) => is_copied(item),
    }
}

// How many items are copied.
fn count_copied(alloc: Global, tree: &ItemTree) -> Result<usize, AllocError> {
    let ids = preorder(alloc, tree)?;
    Ok(
        ids.as_slice()
            .iter()
            .filter(|id| is_item_copied(tree, **id))
            .count(),
    )
}

fn are_all_copied(alloc: Global) -> Result<bool, LowerError> {
    let tree = tree_of_all_kinds(alloc)?;
    Ok(count_copied(alloc, &tree)? == 18)
}

#[test]
fn copies_of_items_are_whole_or_refused_when_memory_is_refused(rt: HostRuntime) {
    assert!(rt; is_right(are_all_copied(rt.alloc())));
}
