//! Copies of aliases and use trees.
ghost use Rattle.std.specs.Prelude.{◌≡◌, IfOk};
ghost use Rattle.item_tree.specs.Tree.{tree_of, tree_of_kind, trees_of};

use crate::use_tree::{ImportAlias, UseTree, UseTreeKind};
use std::alloc::AllocError;

impl Clone for ImportAlias {
    ghost is_clone = { λ alias copy. copy ≡ alias };

    fn clone(&self) -> Result<ImportAlias, AllocError> {
        match self {
            ImportAlias::Underscore => Ok(ImportAlias::Underscore),
            ImportAlias::Alias(name) => Ok(ImportAlias::Alias(name.clone()?)),
        }
    }
}

// A copy of a use tree.
#[cycle(clone_tree)]
#[tactic(auto, using(crate::proofs::TreeLemmas::tree_forms))]
fn clone_tree(tree: &UseTree) -> Result<UseTree, AllocError>
    ensures { IfOk result (λ copy. tree_of copy ≡ tree_of tree.now) }
{
    Ok(UseTree {
        kind: clone_kind(&tree.kind)?,
    })
}

// A copy of a case.
#[cycle(clone_tree)]
#[tactic(auto, using(crate::proofs::TreeLemmas::tree_forms))]
fn clone_kind(kind: &UseTreeKind) -> Result<UseTreeKind, AllocError>
    ensures { IfOk result (λ copy. tree_of_kind copy ≡ tree_of_kind kind.now) }
{
    match kind {
        UseTreeKind::Single { path, alias } => Ok(UseTreeKind::Single {
            path: path.clone()?,
            alias: alias.clone()?,
        }),
        UseTreeKind::Glob { path } => Ok(UseTreeKind::Glob {
            path: path.clone()?,
        }),
        UseTreeKind::Prefixed { prefix, list } => Ok(UseTreeKind::Prefixed {
            prefix: prefix.clone()?,
            list: clone_trees(list)?,
        }),
    }
}

// Copies of use trees.
#[cycle(clone_tree)]
fn clone_trees(trees: &Vec<UseTree>) -> Result<Vec<UseTree>, AllocError>
    ensures { IfOk result (λ copies. trees_of copies.items ≡ trees_of trees.now.items) }
{
    let mut copies = Vec::new(*trees.allocator());
    for tree in trees {
        copies.push(clone_tree(tree)?)?;
    }
    Ok(copies)
}

impl Clone for UseTree {
    ghost is_clone = { λ tree copy. tree_of copy ≡ tree_of tree };

    fn clone(&self) -> Result<UseTree, AllocError> {
        clone_tree(self)
    }
}

impl Clone for UseTreeKind {
    ghost is_clone = { λ kind copy. tree_of_kind copy ≡ tree_of_kind kind };

    fn clone(&self) -> Result<UseTreeKind, AllocError> {
        clone_kind(self)
    }
}
