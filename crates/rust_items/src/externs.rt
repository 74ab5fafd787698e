//! Extern blocks.

ghost use Rattle.std.specs.Prelude.{◌≡◌, ◌++◌, ◌+◌, ◌<◌, IfOk, OnOk, map, false, [], option_map};
ghost use Rattle.hir_input.specs.Attr.{meta_view};
ghost use Rattle.hir_input.specs.Syntax.{item_view, extern_item_view, extern_block_from};
ghost use Rattle.rust_leaves.specs.Clipped.{wanted_item, with_value};
ghost use Rattle.rust_leaves.specs.Kinds.{node};
ghost use Rattle.rust_leaves.specs.Leaves.{no_name};
ghost use Rattle.rust_leaves.specs.Views.{leaf_view};
ghost use Rattle.rust_items.specs.Clipped.{clipped_block, clipped_item_if, clipped_turn};
ghost use Rattle.rust_items.specs.Found.{Finds, log_view};
ghost use Rattle.rust_items.specs.Items as spec;
ghost use Rattle.rust_items.specs.Views.{extern_inside_view};

use crate::log::{Log, ProblemKind};
use crate::turn::{Extent, push_item};
use hir_input::ast::{ExternBlock, ExternItem, Item};
use hir_input::{AstIdKind, Meta};
use rust_cursor::{Cursor, push_some};
use rust_leaves::{Front, Leaf, Wanted, join_attributes, pass_others, take_leaf, wanted_front};
use rust_metas::kept_inner_attributes;
use std::alloc::{AllocError, Global};

/// What stands in the braces of an extern block.
#[derive(Drop)]
pub(crate) struct ExternInside {
    pub attrs: Vec<Meta>,
    pub items: Option<Vec<ExternItem>>,
    pub is_ended: bool,
}

/// The item as one of an extern block, if it may stand there.
#[tactic(auto, using(hir_input::proofs::SyntaxViews::item_views))]
fn as_extern(item: Item) -> Option<ExternItem>
    ensures { option_map extern_item_view result ≡ spec.as_extern (item_view item) }
{
    match item {
        Item::Fn(function) => Some(ExternItem::Fn(function)),
        Item::MacroCall(call) => Some(ExternItem::MacroCall(call)),
        Item::Static(value) => Some(ExternItem::Static(value)),
        Item::TypeAlias(alias) => Some(ExternItem::TypeAlias(alias)),
        other => {
            // (the end of a scope that drops an item is proved slowly)
            drop(other);
            None
        }
    }
}

/// Whether a list of items ends: with the text, or before its `}`.
#[tactic(auto, unfolding(crate::specs::Items::is_list_end))]
pub(crate) fn is_list_end(cursor: &Cursor<'_>, is_top: bool) -> bool
    ensures { result ≡ spec.is_list_end is_top cursor.now }
{
    if cursor.is_empty() {
        return true;
    }
    !is_top && cursor.symbol() == b'}'
}

/// Keeps an item of an extern block, where it may stand there.
fn keep_extern<'t>(
    leaf: Leaf<'t>,
    depth: usize,
    start: usize,
    end: usize,
    log: &mut Log<'t>,
) -> Result<Option<ExternItem>, AllocError>
    ensures { IfOk result (λ item. spec.extern_kept depth start end (leaf_view leaf.entry)
        (spec.as_extern (item_view leaf.entry.item)) (log_view log.old)
        ≡ (option_map extern_item_view item, log_view log.new)) }
{
    let extent = Extent {
        depth,
        start,
        end,
        body: leaf.body,
    };
    match as_extern(leaf.item) {
        Some(item) => {
            push_item(log, extent, leaf.kind, leaf.name, leaf.named, leaf.is_ended)?;
            log.push_problem_at(ProblemKind::TooDeep, leaf.too_deep)?;
            log.push_use_trees(leaf.use_trees)?;
            Ok(Some(item))
        }
        None => {
            log.push_problem(ProblemKind::NoItem, start)?;
            Ok(None)
        }
    }
}

#[tactic(auto, using(crate::proofs::ClippedItems::extern_by_clipped))]
fn extern_by<'t>(
    alloc: Global,
    cursor: &mut Cursor<'t>,
    wanted: Wanted,
    depth: usize,
    log: &mut Log<'t>,
) -> Result<Option<ExternItem>, AllocError>
    ensures { Finds (option_map extern_item_view)
        (with_value (clipped_item_if wanted)
        (spec.extern_by depth (log_view log.old) cursor.old)) result
        (log_view log.new) cursor.new }
{
    let front = wanted_front(alloc, cursor, wanted)?;
    let start = front.start;
    match take_leaf(alloc, cursor, wanted, front)? {
        Some(leaf) => {
            let end = cursor.last_end();
            keep_extern(leaf, depth, start, end, log)
        }
        None => {
            log.push_problem(ProblemKind::NoItem, start)?;
            pass_others(cursor);
            Ok(None)
        }
    }
}

/// An item of an extern block, or none.
#[tactic(auto, using(crate::proofs::ClippedItems::extern_turn_clipped))]
fn extern_turn<'t>(
    alloc: Global,
    cursor: &mut Cursor<'t>,
    wanted: Wanted,
    depth: usize,
    log: &mut Log<'t>,
) -> Result<Option<ExternItem>, AllocError>
    ensures { Finds (option_map extern_item_view)
        (with_value (clipped_item_if wanted)
        (spec.extern_turn depth (log_view log.old) cursor.old)) result
        (log_view log.new) cursor.new }
{
    if cursor.is_at_end() {
        log.push_problem(ProblemKind::Unmatched, cursor.at())?;
        cursor.bump();
        return Ok(None);
    }
    extern_by(alloc, cursor, wanted, depth, log)
}

#[tactic(auto, unfolding(crate::specs::Items::finding), using(crate::proofs::Steps::finding_stop))]
fn extern_items<'t>(
    alloc: Global,
    cursor: &mut Cursor<'t>,
    wanted: Wanted,
    depth: usize,
    log: &mut Log<'t>,
) -> Result<Vec<ExternItem>, AllocError>
    ensures { Finds (λ v. map extern_item_view v.items)
        (spec.finding (spec.is_list_end false) (clipped_turn wanted (spec.extern_turn depth))
        (log_view log.old) cursor.old) result (log_view log.new) cursor.new }
{
    let mut items = Vec::new(alloc);
    let most = Cursor::most_turns();
    for _turn in 0..most {
        if is_list_end(cursor, false) {
            return Ok(items);
        }
        let past = cursor.last_end();
        let item = extern_turn(alloc, cursor, wanted, depth, log)?;
        push_some(&mut items, item)?;
        cursor.pass_beyond(past);
    }
    Ok(items)
}

/// Takes the braces of an extern block, if they come next.
#[tactic(auto, using(crate::proofs::ClippedItems::extern_inside_clipped))]
fn extern_inside<'t>(
    alloc: Global,
    cursor: &mut Cursor<'t>,
    wanted: Wanted,
    depth: usize,
    log: &mut Log<'t>,
) -> Result<ExternInside, AllocError>
    ensures { Finds extern_inside_view
        (with_value (clipped_block wanted)
        (spec.extern_inside depth (log_view log.old) cursor.old)) result
        (log_view log.new) cursor.new }
{
    if cursor.symbol() != b'{' {
        return Ok(ExternInside {
            attrs: Vec::new(alloc),
            items: None,
            is_ended: false,
        });
    }
    cursor.bump();
    let attrs = kept_inner_attributes(alloc, cursor, wanted.metas)?;
    let items = extern_items(alloc, cursor, wanted, depth, log)?;
    let is_ended = cursor.eat(b'}');
    Ok(ExternInside {
        attrs,
        items: Some(items),
        is_ended,
    })
}

fn block_item(alloc: Global, front: Front, inside: ExternInside) -> Result<Item, AllocError>
    ensures { IfOk result (λ item. item_view item
        ≡ extern_block_from (node
        (map meta_view front.attrs.items ++ map meta_view inside.attrs.items) [])
        (option_map (λ v. map extern_item_view v.items) inside.items)) }
{
    let attrs = join_attributes(front.attrs, inside.attrs)?;
    Ok(Item::ExternBlock(ExternBlock {
        hash: 0,
        number: 0,
        attrs,
        items: inside.items,
        body: String::new(alloc),
    }))
}

/// Adds an extern block, and behind it what it holds.
fn push_block<'t>(
    log: &mut Log<'t>,
    depth: usize,
    start: usize,
    end: usize,
    is_ended: bool,
    more: Log<'t>,
) -> Result<(), AllocError>
    ensures { OnOk result (log_view log.new
        ≡ spec.and_parent depth start end AstIdKind.ExternBlock no_name is_ended
        (log_view more.entry) (log_view log.old)) }
{
    let extent = Extent {
        depth,
        start,
        end,
        body: None,
    };
    push_item(log, extent, AstIdKind::ExternBlock, "", None, is_ended)?;
    log.append(more)
}

/// Takes an extern block, behind `extern` and the name of an interface.
#[tactic(auto, using(crate::proofs::ClippedItems::extern_block_clipped))]
pub(crate) fn extern_block<'t>(
    alloc: Global,
    cursor: &mut Cursor<'t>,
    wanted: Wanted,
    depth: usize,
    front: Front,
    log: &mut Log<'t>,
) -> Result<Item, AllocError>
    requires { depth < 129 }
    ensures { Finds item_view
        (with_value (wanted_item wanted (map meta_view front.attrs.items))
        (spec.extern_block depth front.start [] (log_view log.old) cursor.old)) result
        (log_view log.new) cursor.new }
{
    let mut more = Log::new(alloc);
    let start = front.start;
    let inside = extern_inside(alloc, cursor, wanted, depth + 1, &mut more)?;
    let end = cursor.last_end();
    push_block(log, depth, start, end, inside.is_ended, more)?;
    block_item(alloc, front, inside)
}
