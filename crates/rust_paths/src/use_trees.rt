//! Use trees.

ghost use Rattle.std.specs.Prelude.{◌≡◌, ◌||◌, IfOk, MatchResult, Some, option_map, ◌++◌, [], map, is_none};
ghost use Rattle.std.specs.Io.{StartsWith};
ghost use Rattle.hir_input.specs.UseTreeView.{use_tree_view};
ghost use Rattle.rust_cursor.specs.Grammar.{reads};
ghost use Rattle.rust_cursor.specs.Reader.{Gives};
ghost use Rattle.rust_paths.specs.UseTrees as spec;
ghost use Rattle.rust_paths.specs.Views.{found_view, list_view, starts_view, trees_view};

use crate::names::name;
use crate::paths::{is_last_self, use_path};
use hir_input::ast::{PathNode, Rename, UseTree};
use hir_input::{ModPath, PathKind};
use rust_cursor::{Cursor, push_some};
use std::alloc::{AllocError, Global};

/// How deep lists may stand in one another.
const MOST_DEPTH: usize = 128;

/// Where a use tree and the trees in it begin.
#[derive(Debug, Drop)]
pub struct TreeStarts {
    /// The first byte of the tree itself, if its path can be read.
    pub own: Option<usize>,
    /// Those of the trees in its list that can be read, each before those in it.
    pub below: Vec<usize>,
}

impl TreeStarts {
    /// Those of no tree.
    pub fn none(alloc: Global) -> Self
        ensures { starts_view result ≡ [] }
    {
        TreeStarts {
            own: None,
            below: Vec::new(alloc),
        }
    }

    /// Adds them to others, each before those in it.
    ///
    /// # Errors
    ///
    /// Only if memory runs out. Then the list begins with what it was.
    pub fn push_to(self, starts: &mut Vec<usize>) -> Result<(), AllocError>
        ensures { MatchResult result (λ _. starts.new.items ≡ starts.old.items ++ starts_view self)
            (λ _. StartsWith starts.new.items starts.old.items) }
    {
        let mut below = self.below;
        match self.own {
            Some(own) => {
                starts.push(own)?;
                starts.append(&mut below)?;
                Ok(())
            }
            None => {
                starts.append(&mut below)?;
                Ok(())
            }
        }
    }
}

/// A use tree that was read.
#[derive(Debug, Drop)]
pub struct FoundUseTree {
    /// The tree, if one is written.
    pub tree: Option<UseTree>,
    /// Where it and the trees in it begin.
    pub starts: TreeStarts,
    /// The place of the first list that was passed over, since it stands in 128 others.
    pub too_deep: Option<usize>,
}

/// What was read of a list.
#[derive(Drop)]
pub(crate) struct FoundList {
    pub list: Option<Vec<UseTree>>,
    pub starts: Vec<usize>,
    pub too_deep: Option<usize>,
}

/// The trees of a list.
#[derive(Drop)]
pub(crate) struct FoundTrees {
    pub trees: Vec<UseTree>,
    pub starts: Vec<usize>,
    pub too_deep: Option<usize>,
}

/// Takes a name or `_`, if one of them comes next.
#[tactic(auto, unfolding(crate::specs::UseTrees::alias))]
fn alias(alloc: Global, cursor: &mut Cursor<'_>) -> Result<Rename, AllocError>
    ensures { Gives (λ r. r) (reads spec.alias cursor.old) result cursor.new }
{
    let name = name(alloc, cursor)?;
    cursor.eat_word("_");
    Ok(Rename { name })
}

/// Takes `as` and what stands behind it, if it comes next.
#[tactic(auto, unfolding(crate::specs::UseTrees::rename))]
fn rename(alloc: Global, cursor: &mut Cursor<'_>) -> Result<Option<Rename>, AllocError>
    ensures { Gives (λ r. r) (reads spec.rename cursor.old) result cursor.new }
{
    if !cursor.eat_word("as") {
        return Ok(None);
    }
    Ok(Some(alias(alloc, cursor)?))
}

#[tactic(auto, using(crate::proofs::Trees::use_tree_view_made))]
fn bare_tree(path: Option<PathNode>, star: bool, rename: Option<Rename>) -> UseTree
    ensures { use_tree_view result ≡ spec.bare_tree path star rename }
{
    UseTree {
        path,
        star,
        rename,
        list: None,
    }
}

/// Where a tree begins, and those in it, if the path can be read.
fn tree_starts(
    alloc: Global,
    path: &Option<PathNode>,
    start: usize,
    below: Vec<usize>,
) -> TreeStarts
    ensures { starts_view result ≡ spec.begun_trees path.now start below.items }
{
    if let Some(PathNode::Unreadable) = path {
        return TreeStarts::none(alloc);
    }
    TreeStarts {
        own: Some(start),
        below,
    }
}

/// The same of a tree with a list, if there is something of it.
fn begun_list(
    alloc: Global,
    path: &Option<PathNode>,
    start: usize,
    list: &Option<Vec<UseTree>>,
    below: Vec<usize>,
) -> TreeStarts
    ensures { starts_view result
        ≡ spec.begun_list path.now start
        (option_map (λ v. map use_tree_view v.items) list.now) below.items }
{
    if path.is_none() && list.is_none() {
        return TreeStarts::none(alloc);
    }
    tree_starts(alloc, path, start, below)
}

/// A tree without a list, that begins there.
fn found_bare(
    alloc: Global,
    start: usize,
    path: Option<PathNode>,
    star: bool,
    rename: Option<Rename>,
) -> FoundUseTree
    ensures { found_view result ≡ spec.with_bare start path star rename }
{
    let starts = tree_starts(alloc, &path, start, Vec::new(alloc));
    FoundUseTree {
        tree: Some(bare_tree(path, star, rename)),
        starts,
        too_deep: None,
    }
}

/// A tree with a list, if there is something of it.
#[tactic(auto, using(crate::proofs::Trees::use_tree_view_made))]
fn listed_tree(path: Option<PathNode>, list: Option<Vec<UseTree>>) -> Option<UseTree>
    ensures { option_map use_tree_view result
        ≡ spec.tree_with_list path (option_map (λ v. map use_tree_view v.items) list) }
{
    if path.is_none() && list.is_none() {
        return None;
    }
    Some(UseTree {
        path,
        star: false,
        rename: None,
        list,
    })
}

fn found_listed(
    alloc: Global,
    start: usize,
    path: Option<PathNode>,
    found: FoundList,
) -> FoundUseTree
    ensures { found_view result ≡ spec.with_list start path (list_view found) }
{
    let list = found.list;
    let starts = begun_list(alloc, &path, start, &list, found.starts);
    FoundUseTree {
        tree: listed_tree(path, list),
        starts,
        too_deep: found.too_deep,
    }
}

fn self_path(alloc: Global) -> Option<PathNode>
    ensures { result ≡ Some spec.self_path }
{
    let path = ModPath::from_segments(PathKind::Super(0), Vec::new(alloc))?;
    Some(PathNode::Readable(path))
}

/// The tree of a path with a list that holds `self` alone.
#[tactic(auto, using(crate::proofs::Trees::use_tree_view_made))]
fn self_in_list(
    alloc: Global,
    path: Option<PathNode>,
    rename: Option<Rename>,
) -> Result<UseTree, AllocError>
    ensures { IfOk result (λ tree. use_tree_view tree ≡ spec.self_in_list path rename) }
{
    let mut list = Vec::new(alloc);
    list.push(bare_tree(self_path(alloc), false, rename))?;
    Ok(UseTree {
        path,
        star: false,
        rename: None,
        list: Some(list),
    })
}

/// Takes `self` behind a path and `::`, and a rename.
fn self_tree(
    alloc: Global,
    cursor: &mut Cursor<'_>,
    start: usize,
    path: Option<PathNode>,
) -> Result<FoundUseTree, AllocError>
    ensures { Gives found_view (spec.self_tree start path cursor.old) result cursor.new }
{
    let mut below = Vec::new(alloc);
    below.push(cursor.at())?;
    cursor.bump();
    let rename = rename(alloc, cursor)?;
    let starts = tree_starts(alloc, &path, start, below);
    Ok(FoundUseTree {
        tree: Some(self_in_list(alloc, path, rename)?),
        starts,
        too_deep: None,
    })
}

fn no_list(alloc: Global, too_deep: Option<usize>) -> FoundList
    ensures { list_view result ≡ spec.no_list too_deep }
{
    FoundList {
        list: None,
        starts: Vec::new(alloc),
        too_deep,
    }
}

/// Whether a star or a list may come next: behind `::`, and where no path is written.
fn may_be_listed(joined: bool, path: &Option<PathNode>) -> bool
    ensures { result ≡ (joined || is_none path.now) }
{
    joined || path.is_none()
}

/// Passes over what stands before the next comma, and it, or up to a bracket that closes.
#[tactic(auto, unfolding(crate::specs::UseTrees::comma), using(crate::proofs::Trees::comma_end, crate::proofs::Trees::comma_here, crate::proofs::Trees::comma_more),)]
pub fn pass_comma(cursor: &mut Cursor<'_>)
    ensures { cursor.new ≡ spec.tree_behind_comma cursor.old }
{
    let most = Cursor::most_turns();
    for _turn in 0..most {
        if cursor.is_at_end() {
            return;
        }
        if cursor.symbol() == b',' {
            cursor.bump();
            return;
        }
        cursor.pass_tree();
    }
}

#[cycle(trees)]
#[tactic(auto, unfolding(crate::specs::UseTrees::tree_at))]
fn tree_at(alloc: Global, cursor: &mut Cursor<'_>, depth: usize) -> Result<FoundUseTree, AllocError>
    ensures { Gives found_view (spec.tree_at depth cursor.old) result cursor.new }
{
    let start = cursor.at();
    let path = use_path(alloc, cursor)?;
    let joined = cursor.eat_colons();
    if !may_be_listed(joined, &path) {
        let rename = rename(alloc, cursor)?;
        return Ok(found_bare(alloc, start, path, false, rename));
    }
    if cursor.symbol() == b'*' {
        cursor.bump();
        return Ok(found_bare(alloc, start, path, true, None));
    }
    if is_last_self(cursor) {
        return self_tree(alloc, cursor, start, path);
    }
    let found = list(alloc, cursor, depth)?;
    Ok(found_listed(alloc, start, path, found))
}

#[cycle(trees)]
#[tactic(auto, using(crate::proofs::Trees::list_deep, crate::proofs::Trees::list_none, crate::proofs::Trees::list_some),)]
fn list(alloc: Global, cursor: &mut Cursor<'_>, depth: usize) -> Result<FoundList, AllocError>
    ensures { Gives list_view (spec.list depth cursor.old) result cursor.new }
{
    if cursor.symbol() != b'{' {
        return Ok(no_list(alloc, None));
    }
    if depth == 0 {
        let too_deep = Some(cursor.at());
        cursor.pass_tree();
        return Ok(no_list(alloc, too_deep));
    }
    cursor.bump();
    let found = trees(alloc, cursor, depth - 1)?;
    cursor.pass_closed(b'{');
    Ok(FoundList {
        list: Some(found.trees),
        starts: found.starts,
        too_deep: found.too_deep,
    })
}

#[cycle(trees)]
#[tactic(auto, unfolding(crate::specs::UseTrees::element, crate::specs::UseTrees::tree_at))]
fn element(alloc: Global, cursor: &mut Cursor<'_>, depth: usize) -> Result<FoundUseTree, AllocError>
    ensures { Gives found_view (spec.element depth cursor.old) result cursor.new }
{
    let found = tree_at(alloc, cursor, depth)?;
    pass_comma(cursor);
    Ok(found)
}

#[cycle(trees)]
#[tactic(auto, unfolding(rust_cursor::specs::Elements::turns))]
fn trees(alloc: Global, cursor: &mut Cursor<'_>, depth: usize) -> Result<FoundTrees, AllocError>
    ensures { Gives trees_view (spec.trees (spec.element depth) cursor.old) result cursor.new }
{
    let mut trees = Vec::new(alloc);
    let mut starts = Vec::new(alloc);
    let mut too_deep = None;
    let most = Cursor::most_turns();
    for _turn in 0..most {
        if cursor.is_at_end() {
            break;
        }
        let past = cursor.last_end();
        let found = element(alloc, cursor, depth)?;
        push_some(&mut trees, found.tree)?;
        found.starts.push_to(&mut starts)?;
        too_deep = too_deep.or(found.too_deep);
        cursor.pass_beyond(past);
    }
    Ok(FoundTrees {
        trees,
        starts,
        too_deep,
    })
}

/// Takes a use tree, if one is written.
///
/// Lists that stand in more than 128 others are passed over, and the place of the first of them is told. What stands
/// between a tree of a list and the next comma is passed over too. `a::self` is read as `a::{self}`, which it means.
/// Where the trees begin is told of those that can be read, as a tree's imports are numbered by them: not of a tree
/// with an unreadable path, nor of those in it. rust-analyzer's `use_tree`.
#[tactic(auto, unfolding(crate::specs::UseTrees::use_tree))]
pub fn use_tree(alloc: Global, cursor: &mut Cursor<'_>) -> Result<FoundUseTree, AllocError>
    ensures { Gives found_view (spec.use_tree cursor.old) result cursor.new }
{
    tree_at(alloc, cursor, MOST_DEPTH)
}
