//! The imports of a use.
ghost use Rattle.std.specs.Prelude.{◌≡◌, ◌+◌, ◌≤◌, OnOk, OnErr};
ghost use Rattle.item_tree.specs.Calls.{MayCallAt, CalledAtAll, CalledAtSome, at_import, by_import};
ghost use Rattle.item_tree.specs.Inner.Expanding.{chain_of, supers_before, branch_count};
ghost use Rattle.item_tree.specs.Imports.{imports, imports_from, all_imports_from, most_supers, all_most_supers};
ghost use Rattle.item_tree.specs.Imports.{super_limit};
ghost use Rattle.item_tree.specs.KeptUse.{use_tree_limit};
ghost use Rattle.item_tree.specs.Tree.{tree_count, tree_of, trees_of, single, glob};

use super::join::{import_kind, join_below, meaning, star_meaning};
use crate::items::Use;
use crate::use_tree::{ImportAlias, ImportKind, UseTree, UseTreeIdx, UseTreeKind};
use hir_input::ModPath;
use std::alloc::{AllocError, Global};

impl Use {
    /// Calls `f` at each import of the use tree, in the order in which they are written: with the index of the node
    /// that imports, the whole path, the kind and the alias. The index is the place of the node among all nodes of
    /// the use tree, each counted before those below it. Where the words of a path cannot follow those above it, as
    /// in `a::{super::b}`, nothing is imported, and `f` is not called.
    /// rust-analyzer's `Use::expand`. The caller shows that `f` may be called at each import, in each state that the
    /// calls before can leave; a closure without a `requires` may.
    ///
    /// # Errors
    ///
    /// Only if memory runs out: then the calls made are a beginning of those that would have been made.
    pub fn expand<F: FnMut(UseTreeIdx, ModPath, ImportKind, Option<ImportAlias>)>(
        &self,
        alloc: Global,
        f: &mut F,
    ) -> Result<(), AllocError>
        requires { MayCallAt (at_import F.pre) (by_import F.step) f.old (imports self.now.tree) }
        ensures called { OnOk result
            (CalledAtAll (by_import F.step) f.old (imports self.now.tree) f.new) }
        ensures refused { OnErr result
            (CalledAtSome (by_import F.step) f.old (imports self.now.tree) f.new) }
    {
        let mut next = 0;
        expand_tree(alloc, self.use_tree(), None, &mut next, f)
    }
}

// Calls `f` at each import of the trees below a path. The first node has the index `next`.
#[cycle(expand)]
fn expand_all<F: FnMut(UseTreeIdx, ModPath, ImportKind, Option<ImportAlias>)>(
    alloc: Global,
    trees: &[UseTree],
    before: Option<&ModPath>,
    next: &mut u32,
    f: &mut F,
) -> Result<(), AllocError>
    requires counts { next.old + branch_count (trees_of trees.now) ≤ use_tree_limit }
    requires supers { all_most_supers (supers_before before) (trees_of trees.now) ≤ super_limit }
    requires calls { MayCallAt (at_import F.pre) (by_import F.step) f.old
        (all_imports_from (chain_of before) next.old (trees_of trees.now)) }
    ensures counted { OnOk result (next.new ≡ next.old + branch_count (trees_of trees.now)) }
    ensures called { OnOk result
        (CalledAtAll (by_import F.step) f.old
        (all_imports_from (chain_of before.entry) next.old (trees_of trees.now)) f.new) }
    ensures refused { OnErr result
        (CalledAtSome (by_import F.step) f.old
        (all_imports_from (chain_of before.entry) next.old (trees_of trees.now)) f.new) }
{
    for tree in trees {
        expand_tree(alloc, tree, before, next, f)?;
    }
    Ok(())
}

// Calls `f` at each import of the tree below a path. Its first node has the index `next`.
#[cycle(expand)]
fn expand_tree<F: FnMut(UseTreeIdx, ModPath, ImportKind, Option<ImportAlias>)>(
    alloc: Global,
    tree: &UseTree,
    before: Option<&ModPath>,
    next: &mut u32,
    f: &mut F,
) -> Result<(), AllocError>
    requires counts { next.old + tree_count (tree_of tree.now) ≤ use_tree_limit }
    requires supers { most_supers (supers_before before) (tree_of tree.now) ≤ super_limit }
    requires calls { MayCallAt (at_import F.pre) (by_import F.step) f.old
        (imports_from (chain_of before) next.old (tree_of tree.now)) }
    ensures counted { OnOk result (next.new ≡ next.old + tree_count (tree_of tree.now)) }
    ensures called { OnOk result
        (CalledAtAll (by_import F.step) f.old
        (imports_from (chain_of before.entry) next.old (tree_of tree.now)) f.new) }
    ensures refused { OnErr result
        (CalledAtSome (by_import F.step) f.old
        (imports_from (chain_of before.entry) next.old (tree_of tree.now)) f.new) }
{
    let index = *next;
    *next += 1;
    match tree.kind() {
        UseTreeKind::Single { path, alias } => expand_single(alloc, index, path, alias, before, f),
        UseTreeKind::Glob { path } => expand_glob(alloc, index, path, before, f),
        UseTreeKind::Prefixed { prefix, list } => match prefix {
            None => expand_all(alloc, list, before, next, f),
            Some(prefix) => match join_below(alloc, before, prefix)? {
                Some(joined) => expand_all(alloc, list, Some(&joined), next, f),
                None => {
                    *next += count_all(list);
                    Ok(())
                }
            },
        },
    }
}

// Calls `f` at the import of a path below another, if there is one.
fn expand_single<F: FnMut(UseTreeIdx, ModPath, ImportKind, Option<ImportAlias>)>(
    alloc: Global,
    index: u32,
    path: &ModPath,
    alias: &Option<ImportAlias>,
    before: Option<&ModPath>,
    f: &mut F,
) -> Result<(), AllocError>
    requires supers { most_supers (supers_before before) (single path.now alias.now) ≤ super_limit }
    requires calls { MayCallAt (at_import F.pre) (by_import F.step) f.old
        (imports_from (chain_of before) index (single path.now alias.now)) }
    ensures called { OnOk result
        (CalledAtAll (by_import F.step) f.old
        (imports_from (chain_of before.entry) index (single path.now alias.now)) f.new) }
    ensures refused { OnErr result
        (CalledAtSome (by_import F.step) f.old
        (imports_from (chain_of before.entry) index (single path.now alias.now)) f.new) }
{
    let kind = import_kind(before, path);
    if let Some(path) = meaning(alloc, before, path)? {
        let alias = alias.clone()?;
        f(UseTreeIdx(index), path, kind, alias);
    }
    Ok(())
}

// Calls `f` at the import of a path with a star, if there is one.
fn expand_glob<F: FnMut(UseTreeIdx, ModPath, ImportKind, Option<ImportAlias>)>(
    alloc: Global,
    index: u32,
    path: &Option<ModPath>,
    before: Option<&ModPath>,
    f: &mut F,
) -> Result<(), AllocError>
    requires supers { most_supers (supers_before before) (glob path.now) ≤ super_limit }
    requires calls { MayCallAt (at_import F.pre) (by_import F.step) f.old
        (imports_from (chain_of before) index (glob path.now)) }
    ensures called { OnOk result
        (CalledAtAll (by_import F.step) f.old
        (imports_from (chain_of before.entry) index (glob path.now)) f.new) }
    ensures refused { OnErr result
        (CalledAtSome (by_import F.step) f.old
        (imports_from (chain_of before.entry) index (glob path.now)) f.new) }
{
    if let Some(path) = star_meaning(alloc, before, path)? {
        f(UseTreeIdx(index), path, ImportKind::Glob, None);
    }
    Ok(())
}

// How many nodes the trees have.
#[cycle(count)]
fn count_all(trees: &[UseTree]) -> u32
    requires { branch_count (trees_of trees.now) ≤ use_tree_limit }
    ensures { result ≡ branch_count (trees_of trees.now) }
{
    let mut count = 0;
    for branch in trees {
        count += count_nodes(branch);
    }
    count
}

// How many nodes the tree has.
#[cycle(count)]
fn count_nodes(tree: &UseTree) -> u32
    requires { tree_count (tree_of tree.now) ≤ use_tree_limit }
    ensures { result ≡ tree_count (tree_of tree.now) }
{
    match tree.kind() {
        UseTreeKind::Single { .. } | UseTreeKind::Glob { .. } => 1,
        UseTreeKind::Prefixed { list, .. } => 1 + count_all(list),
    }
}
