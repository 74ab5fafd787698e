//! What an item leaves in the log, and items that hold none.

ghost use Rattle.std.specs.Prelude.{◌≡◌, IfOk, OnOk, option_map};
ghost use Rattle.hir_input.specs.Syntax.{item_view};
ghost use Rattle.rust_leaves.specs.Views.{front_view, leaf_view};
ghost use Rattle.rust_items.specs.Clipped.{wanted_behind};
ghost use Rattle.rust_items.specs.Found.{Finds, and_problem_at, log_view};
ghost use Rattle.rust_items.specs.Items as spec;

use crate::log::{ItemSpan, Log, ProblemKind};
use hir_input::AstIdKind;
use hir_input::ast::Item;
use rust_cursor::Cursor;
use rust_ids::Node;
use rust_leaves::{Front, Leaf, Wanted, pass_others, take_leaf};
use rust_paths::{TextRange, TreeStarts};
use std::alloc::{AllocError, Global};

/// What of an item goes into the log beside what its name tells.
#[derive(Clone, Copy)]
pub(crate) struct Extent {
    pub depth: usize,
    pub start: usize,
    pub end: usize,
    pub body: Option<TextRange>,
}

/// Adds an item, with a problem if it has no end, or no name where it needs one.
pub(crate) fn push_item<'t>(
    log: &mut Log<'t>,
    extent: Extent,
    kind: AstIdKind,
    name: &'t str,
    named: Option<TextRange>,
    is_ended: bool,
) -> Result<(), AllocError>
    ensures { OnOk result (log_view log.new
        ≡ spec.and_item extent.depth extent.start extent.end extent.body kind name.now named
        is_ended (log_view log.old)) }
{
    let row = Node::new(extent.depth, kind, name);
    let range = TextRange {
        start: extent.start,
        end: extent.end,
    };
    let span = ItemSpan {
        range,
        name: named,
        body: extent.body,
    };
    log.push_row(row, span)?;
    if !is_ended {
        return log.push_problem(ProblemKind::Unfinished, extent.start);
    }
    let is_nameless = named.is_none() && needs_name(kind);
    log.push_problem_if(is_nameless, ProblemKind::Nameless, extent.start)
}

/// Whether an item of the kind has a name; a constant may go without one.
fn needs_name(kind: AstIdKind) -> bool
    ensures { result ≡ spec.needs_name kind }
{
    match kind {
        AstIdKind::Const
        | AstIdKind::ExternBlock
        | AstIdKind::Impl
        | AstIdKind::MacroCall
        | AstIdKind::Use => false,
        _ => true,
    }
}

/// Adds an item that holds none, but for its use trees.
fn push_leaf<'t>(
    log: &mut Log<'t>,
    depth: usize,
    start: usize,
    end: usize,
    leaf: &Leaf<'t>,
) -> Result<(), AllocError>
    ensures { let l = leaf.now in
        OnOk result (log_view log.new ≡ and_problem_at ProblemKind.TooDeep l.too_deep
        (spec.and_item depth start end l.body l.kind l.name.now l.named l.is_ended (log_view log.old))) }
{
    let extent = Extent {
        depth,
        start,
        end,
        body: leaf.body,
    };
    push_item(log, extent, leaf.kind, leaf.name, leaf.named, leaf.is_ended)?;
    log.push_problem_at(ProblemKind::TooDeep, leaf.too_deep)
}

/// An item that holds none, and where its use trees begin.
fn parts_of(leaf: Leaf<'_>) -> (Item, TreeStarts)
    ensures { result ≡ (leaf.entry.item, leaf.entry.use_trees) }
{
    (leaf.item, leaf.use_trees)
}

/// Keeps an item that holds none.
fn keep_leaf<'t>(
    leaf: Leaf<'t>,
    depth: usize,
    start: usize,
    end: usize,
    log: &mut Log<'t>,
) -> Result<Option<Item>, AllocError>
    ensures { IfOk result (λ item. spec.leaf_kept depth start end (leaf_view leaf.entry)
        (log_view log.old) ≡ (option_map item_view item, log_view log.new)) }
{
    // (the end of a scope that drops an item is proved slowly)
    if let Err(error) = push_leaf(log, depth, start, end, &leaf) {
        drop(leaf);
        return Err(error);
    }
    let (item, use_trees) = parts_of(leaf);
    match log.push_use_trees(use_trees) {
        Ok(()) => Ok(Some(item)),
        Err(error) => {
            drop(item);
            Err(error)
        }
    }
}

/// An item that holds none, or tokens that begin no item.
#[tactic(auto, using(crate::proofs::ClippedItems::leaf_turn_clipped))]
pub(crate) fn leaf_turn<'t>(
    alloc: Global,
    cursor: &mut Cursor<'t>,
    wanted: Wanted,
    depth: usize,
    front: Front,
    log: &mut Log<'t>,
) -> Result<Option<Item>, AllocError>
    ensures { Finds (option_map item_view)
        (wanted_behind wanted (spec.leaf_turn depth) (front_view front)
        (log_view log.old) cursor.old) result (log_view log.new) cursor.new }
{
    let start = front.start;
    match take_leaf(alloc, cursor, wanted, front)? {
        Some(leaf) => {
            let end = cursor.last_end();
            keep_leaf(leaf, depth, start, end, log)
        }
        None => {
            log.push_problem(ProblemKind::NoItem, start)?;
            pass_others(cursor);
            Ok(None)
        }
    }
}
