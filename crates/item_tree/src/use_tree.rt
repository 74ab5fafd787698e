//! Use trees, and the imports that they mean.
ghost use Rattle.std.specs.Prelude.{◌≡◌};
ghost use Rattle.item_tree.specs.Tree.{tree_of, tree_of_kind, trees_of, single, glob, prefixed};

mod copy;
mod equal;
mod expand;
mod join;
mod text;

use hir_input::{ModPath, Name};
pub use text::ImportAliasDisplay;

/// What an import is renamed to. rust-analyzer's `ImportAlias`.
#[derive(Debug, Drop)]
pub enum ImportAlias {
    /// `as _`
    Underscore,
    /// `as name`
    Alias(Name),
}

/// How an import imports. rust-analyzer's `ImportKind`.
#[derive(Clone, Copy, Debug, PartialEq, Eq)]
pub enum ImportKind {
    /// A name.
    Plain,
    /// All names of a path.
    Glob,
    /// A name in the type namespace only, by `self` in a list.
    TypeOnly,
}

/// The place of a node in its use tree, where each node is counted before those below it, the root as 0.
/// rust-analyzer's `Idx<ast::UseTree>`.
#[derive(Clone, Copy, Debug, PartialEq, Eq)]
pub struct UseTreeIdx(pub u32);

/// What is kept of a written use tree, from which its imports come. rust-analyzer's `UseTree`.
#[derive(Debug, Drop)]
#[cycle(use_tree)]
pub struct UseTree {
    kind: UseTreeKind,
}

/// The cases of a use tree. rust-analyzer's `UseTreeKind`.
#[derive(Debug, Drop)]
#[cycle(use_tree)]
pub enum UseTreeKind {
    /// `path` or `path as alias`
    Single {
        path: ModPath,
        alias: Option<ImportAlias>,
    },
    /// `path::*`, or `*` without a path
    Glob {
        path: Option<ModPath>,
    },
    /// `prefix::{..}`, or `{..}` without a prefix
    Prefixed {
        prefix: Option<ModPath>,
        list: Vec<UseTree>,
    },
}

impl UseTree {
    pub(crate) fn single(path: ModPath, alias: Option<ImportAlias>) -> UseTree
        ensures { tree_of result ≡ single path alias }
    {
        UseTree {
            kind: UseTreeKind::Single { path, alias },
        }
    }

    pub(crate) fn glob(path: Option<ModPath>) -> UseTree
        ensures { tree_of result ≡ glob path }
    {
        UseTree {
            kind: UseTreeKind::Glob { path },
        }
    }

    pub(crate) fn prefixed(prefix: Option<ModPath>, list: Vec<UseTree>) -> UseTree
        ensures { tree_of result ≡ prefixed prefix (trees_of list.items) }
    {
        UseTree {
            kind: UseTreeKind::Prefixed { prefix, list },
        }
    }

    /// Lends its case. rust-analyzer's `UseTree::kind`.
    pub fn kind(&self) -> &UseTreeKind
        ensures { tree_of_kind result.now ≡ tree_of self.now }
    {
        &self.kind
    }
}
