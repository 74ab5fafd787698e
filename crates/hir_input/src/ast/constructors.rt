//! Constructors of nodes. Each makes a node without attributes, visibility and body, whose id has the hash 0 and the
//! number 0. More is written around it: `Fn { visibility: Some(Visibility::Pub), ..Fn::new(alloc, name) }`.
ghost use Rattle.std.specs.Prelude.{◌≡◌, [], None, Some, false, true};
ghost use Rattle.hir_input.specs.Nodes.{empty_node, named_alone};
ghost use Rattle.hir_input.specs.Syntax.{named_from, node_from};
ghost use Rattle.hir_input.specs.UseTreeView.{bare_tree, use_tree_view};
ghost use Rattle.hir_input.specs.declared.expand_to.ExpandTo.TheVariants.{Items};

use super::{
    AsmExpr, ExternBlock, ExternCrate, ExternItem, Impl, Item, MacroCall, MacroRules, Module,
    NamedNode, PathNode, Struct, StructKind, Use, UseTree,
};
use crate::expand_to::ExpandTo;
use crate::ids::SyntaxContext;
use crate::name::Name;
use std::alloc::Global;

// A node whose id has the hash 0 and the number 0, without attributes and body, and with these fields.
macro_rules! bare_node {
    ($alloc:expr, $kind:ident $(, $field:ident: $value:expr)*) => {
        $kind {
            hash: 0,
            number: 0,
            attrs: Vec::new($alloc),
            body: String::new($alloc)
            $(, $field: $value)*
        }
    };
}

// Such a node that has this name, or none, and no visibility.
macro_rules! bare_named {
    ($alloc:expr, $name:expr, $kind:ident $(, $field:ident: $value:expr)*) => {
        bare_node!($alloc, $kind, name: $name, visibility: None $(, $field: $value)*)
    };
}

impl NamedNode {
    /// `const NAME: ..;`, `enum NAME {}`, `fn NAME();`, `macro NAME() {}`, `static NAME: ..;`, `trait NAME {}`,
    /// `type NAME = ..;` or `union NAME {}`, as the case says that it is put into.
    pub fn new(alloc: Global, name: Option<Name>) -> Self
        ensures { named_from result.hash result.number result.attrs.items result.name
            result.visibility result.body ≡ named_alone name }
    {
        bare_named!(alloc, name, NamedNode)
    }
}

impl AsmExpr {
    /// `asm!(..)` or the like, in the place of an item.
    pub fn new(alloc: Global) -> Self
        ensures { node_from result.hash result.number result.attrs.items result.body ≡ empty_node }
    {
        bare_node!(alloc, AsmExpr)
    }
}

impl ExternBlock {
    /// `extern { .. }`, with these items.
    pub fn new(alloc: Global, items: Vec<ExternItem>) -> Self
        ensures node { node_from result.hash result.number result.attrs.items result.body
            ≡ empty_node }
        ensures items { result.items ≡ Some items }
    {
        bare_node!(alloc, ExternBlock, items: Some(items))
    }
}

impl ExternCrate {
    /// `extern crate NAME;`
    pub fn new(alloc: Global, name: Option<Name>) -> Self
        ensures named { named_from result.hash result.number result.attrs.items result.name
            result.visibility result.body ≡ named_alone name }
        ensures rename { result.rename ≡ None }
    {
        bare_named!(alloc, name, ExternCrate, rename: None)
    }
}

impl Impl {
    /// An impl of a type alone.
    pub fn new(alloc: Global) -> Self
        ensures node { node_from result.hash result.number result.attrs.items result.body
            ≡ empty_node }
        ensures inherent { result.is_trait_impl ≡ false }
    {
        bare_node!(alloc, Impl, is_trait_impl: false)
    }
}

impl MacroCall {
    /// `PATH!();`, which stands in the place of an item.
    pub fn new(alloc: Global, path: Option<PathNode>, ctxt: SyntaxContext) -> Self
        ensures node { node_from result.hash result.number result.attrs.items result.body
            ≡ empty_node }
        ensures path { result.path ≡ path }
        ensures expands { result.expand_to ≡ Items }
        ensures ctxt { result.ctxt ≡ ctxt }
    {
        bare_node!(alloc, MacroCall, path: path, expand_to: ExpandTo::Items, ctxt: ctxt)
    }
}

impl MacroRules {
    /// `macro_rules! NAME {}`
    pub fn new(alloc: Global, name: Option<Name>) -> Self
        ensures node { node_from result.hash result.number result.attrs.items result.body
            ≡ empty_node }
        ensures name { result.name ≡ name }
    {
        bare_node!(alloc, MacroRules, name: name)
    }
}

impl Module {
    /// `mod NAME { .. }`, with these items.
    pub fn new(alloc: Global, name: Option<Name>, items: Vec<Item>) -> Self
        ensures named { named_from result.hash result.number result.attrs.items result.name
            result.visibility result.body ≡ named_alone name }
        ensures inline { result.semicolon ≡ false }
        ensures items { result.items ≡ Some items }
    {
        bare_named!(alloc, name, Module, semicolon: false, items: Some(items))
    }

    /// `mod NAME;`
    pub fn outline(alloc: Global, name: Option<Name>) -> Self
        ensures named { named_from result.hash result.number result.attrs.items result.name
            result.visibility result.body ≡ named_alone name }
        ensures outline { result.semicolon ≡ true }
        ensures items { result.items ≡ None }
    {
        bare_named!(alloc, name, Module, semicolon: true, items: None)
    }
}

impl Struct {
    /// A struct of these fields: `struct NAME;`, `struct NAME(..);` or `struct NAME {}`.
    pub fn new(alloc: Global, name: Option<Name>, kind: StructKind) -> Self
        ensures named { named_from result.hash result.number result.attrs.items result.name
            result.visibility result.body ≡ named_alone name }
        ensures kind { result.kind ≡ kind }
    {
        bare_named!(alloc, name, Struct, kind: kind)
    }
}

impl Use {
    /// `use TREE;`
    pub fn new(alloc: Global, tree: UseTree) -> Self
        ensures node { node_from result.hash result.number result.attrs.items result.body
            ≡ empty_node }
        ensures visibility { result.visibility ≡ None }
        ensures tree { result.use_tree ≡ Some tree }
    {
        bare_node!(alloc, Use, visibility: None, use_tree: Some(tree))
    }
}

impl UseTree {
    /// The use tree of a path alone, or of nothing.
    pub fn new(path: Option<PathNode>) -> Self
        ensures { use_tree_view result
            ≡ bare_tree (record { path = path; star = false; rename = None }) }
    {
        UseTree {
            path,
            star: false,
            rename: None,
            list: None,
        }
    }
}
