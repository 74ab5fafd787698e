//! Use trees.
use crate::samples::words::{name, path_node, push};
use hir_input::PathKind;
use hir_input::ast::{PathNode, Rename, UseTree};
use std::alloc::{AllocError, Global};

/// A path as of `words::path`, without a star and a list.
pub fn leaf(alloc: Global, kind: PathKind, text: &str) -> Result<UseTree, AllocError> {
    Ok(UseTree {
        path: path_node(alloc, kind, text)?,
        star: false,
        rename: None,
        list: None,
    })
}

/// The same with a star behind it.
pub fn with_star(alloc: Global, text: &str) -> Result<UseTree, AllocError> {
    let mut tree = leaf(alloc, PathKind::Plain, text)?;
    tree.star = true;
    Ok(tree)
}

/// The tree under another name.
pub fn with_alias(alloc: Global, mut tree: UseTree, text: &str) -> Result<UseTree, AllocError> {
    let name = name(alloc, text)?;
    tree.rename = Some(Rename { name });
    Ok(tree)
}

/// A path that is not readable.
pub fn unreadable() -> UseTree {
    UseTree {
        path: Some(PathNode::Unreadable),
        star: false,
        rename: None,
        list: None,
    }
}

/// Use trees below one without a list, star and rename.
pub fn below(mut tree: UseTree, list: Vec<UseTree>) -> UseTree {
    tree.list = Some(list);
    tree
}

/// `{..}`
pub fn list(list: Vec<UseTree>) -> UseTree {
    UseTree {
        path: None,
        star: false,
        rename: None,
        list: Some(list),
    }
}

fn plain(alloc: Global, text: &str) -> Result<UseTree, AllocError> {
    leaf(alloc, PathKind::Plain, text)
}

// `{TREE}`
fn in_list(alloc: Global, tree: Result<UseTree, AllocError>) -> Result<UseTree, AllocError> {
    Ok(list(vec![in alloc; tree?]?))
}

// `a::{..}`
fn below_a(alloc: Global, list: Vec<UseTree>) -> Result<UseTree, AllocError> {
    Ok(below(plain(alloc, "a")?, list))
}

/// `a::{{}, b, {c}}`
pub fn with_lists(alloc: Global) -> Result<UseTree, AllocError> {
    let mut all = Vec::new(alloc);
    push(&mut all, Ok(list(Vec::new(alloc))))?;
    push(&mut all, plain(alloc, "b"))?;
    push(&mut all, in_list(alloc, plain(alloc, "c")))?;
    below_a(alloc, all)
}

// `{c, {d::*}}`
fn two_deep(alloc: Global) -> Result<UseTree, AllocError> {
    let mut all = Vec::new(alloc);
    push(&mut all, plain(alloc, "c"))?;
    push(&mut all, in_list(alloc, with_star(alloc, "d")))?;
    Ok(list(all))
}

// `self as b`
fn itself_renamed(alloc: Global) -> Result<UseTree, AllocError> {
    with_alias(alloc, leaf(alloc, PathKind::Super(0), "")?, "b")
}

/// `a::{*, self as b, {c, {d::*}}}`
pub fn nested_tree(alloc: Global) -> Result<UseTree, AllocError> {
    let mut all = Vec::new(alloc);
    push(&mut all, with_star(alloc, ""))?;
    push(&mut all, itself_renamed(alloc))?;
    push(&mut all, two_deep(alloc))?;
    below_a(alloc, all)
}

// `c::* as g`
fn star_renamed(alloc: Global) -> Result<UseTree, AllocError> {
    with_alias(alloc, with_star(alloc, "c")?, "g")
}

/// `a::{b, c::* as g, ?, d}`
pub fn partly_kept(alloc: Global) -> Result<UseTree, AllocError> {
    let mut all = Vec::new(alloc);
    push(&mut all, plain(alloc, "b"))?;
    push(&mut all, star_renamed(alloc))?;
    push(&mut all, Ok(unreadable()))?;
    push(&mut all, plain(alloc, "d"))?;
    below_a(alloc, all)
}

/// `a::{b, d}`
pub fn two_names(alloc: Global) -> Result<UseTree, AllocError> {
    let mut all = Vec::new(alloc);
    push(&mut all, plain(alloc, "b"))?;
    push(&mut all, plain(alloc, "d"))?;
    below_a(alloc, all)
}
