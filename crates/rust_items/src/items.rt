//! The items of files and modules.

ghost use Rattle.std.specs.Prelude.{◌≡◌, ◌++◌, IfOk, OnOk, map, option_map, []};
ghost use Rattle.hir_input.specs.Attr.{meta_view};
ghost use Rattle.hir_input.specs.Syntax.{item_view, module_from};
ghost use Rattle.rust_items.specs.Clipped.{clipped_block, clipped_item_if, clipped_turn, wanted_behind};
ghost use Rattle.rust_items.specs.Found.{Finds, log_view};
ghost use Rattle.rust_items.specs.Items as spec;
ghost use Rattle.rust_items.specs.Views.{inside_view};
ghost use Rattle.rust_leaves.specs.Clipped.{without_attributes, wanted_item, with_value};
ghost use Rattle.rust_leaves.specs.Kinds.{named_node};
ghost use Rattle.rust_leaves.specs.Views.{front_view, name_view};

use crate::externs::{extern_block, is_list_end};
use crate::log::{Log, ProblemKind};
use crate::turn::{Extent, leaf_turn, push_item};
use hir_input::ast::{Item, Module};
use hir_input::{AstIdKind, Meta, Name};
use rust_cursor::{Cursor, push_some};
use rust_leaves::{Front, Head, Named, Wanted, item_name, join_attributes, wanted_front};
use rust_metas::kept_inner_attributes;
use std::alloc::{AllocError, Global};

/// How deep modules may stand in one another.
pub(crate) const MOST_DEPTH: usize = 128;

/// What stands in the braces of a module.
#[derive(Drop)]
pub(crate) struct Inside {
    pub attrs: Vec<Meta>,
    pub items: Option<Vec<Item>>,
    pub is_ended: bool,
}

fn depth_of(left: usize) -> usize
    ensures { result ≡ spec.depth_of left }
{
    MOST_DEPTH.saturating_sub(left)
}

fn no_inside(alloc: Global, is_ended: bool) -> Inside
    ensures { inside_view result ≡ spec.empty_block is_ended }
{
    Inside {
        attrs: Vec::new(alloc),
        items: None,
        is_ended,
    }
}

/// Adds a module, and behind it what it holds.
fn push_module<'t>(
    log: &mut Log<'t>,
    depth: usize,
    start: usize,
    end: usize,
    named: &Named<'t>,
    is_ended: bool,
    more: Log<'t>,
) -> Result<(), AllocError>
    ensures { OnOk result (log_view log.new
        ≡ spec.and_parent depth start end AstIdKind.Module (name_view named.now) is_ended
        (log_view more.entry) (log_view log.old)) }
{
    let extent = Extent {
        depth,
        start,
        end,
        body: None,
    };
    let kind = AstIdKind::Module;
    push_item(log, extent, kind, named.hashed, named.range, is_ended)?;
    log.append(more)
}

#[tactic(auto, using(hir_input::proofs::SyntaxViews::item_views))]
fn module_item(
    alloc: Global,
    front: Front,
    name: Option<Name>,
    semicolon: bool,
    inside: Inside,
) -> Result<Item, AllocError>
    ensures { IfOk result (λ item. item_view item
        ≡ module_from (named_node
        (map meta_view front.attrs.items ++ map meta_view inside.attrs.items) name front.visibility
        []) semicolon (option_map (λ v. map item_view v.items) inside.items)) }
{
    let attrs = join_attributes(front.attrs, inside.attrs)?;
    Ok(Item::Module(Module {
        hash: 0,
        number: 0,
        attrs,
        name,
        visibility: front.visibility,
        semicolon,
        items: inside.items,
        body: String::new(alloc),
    }))
}

/// Takes the braces of a module, if they come next.
#[cycle(items)]
#[tactic(auto, using(crate::proofs::ClippedItems::deep_clipped, crate::proofs::ClippedItems::none_clipped, crate::proofs::ClippedItems::some_clipped,),)]
fn module_inside<'t>(
    alloc: Global,
    cursor: &mut Cursor<'t>,
    wanted: Wanted,
    left: usize,
    log: &mut Log<'t>,
) -> Result<Inside, AllocError>
    ensures { Finds inside_view
        (with_value (clipped_block wanted) (spec.inside left (log_view log.old) cursor.old))
        result (log_view log.new) cursor.new }
{
    if cursor.symbol() != b'{' {
        return Ok(no_inside(alloc, false));
    }
    if left == 0 {
        log.push_problem(ProblemKind::TooDeep, cursor.at())?;
        cursor.pass_tree();
        return Ok(no_inside(alloc, true));
    }
    cursor.bump();
    let attrs = kept_inner_attributes(alloc, cursor, wanted.metas)?;
    let items = items(alloc, cursor, wanted, false, left - 1, log)?;
    let is_ended = cursor.eat(b'}');
    Ok(Inside {
        attrs,
        items: Some(items),
        is_ended,
    })
}

#[cycle(items)]
#[tactic(auto, using(crate::proofs::ClippedItems::unless_clipped))]
fn inside_unless<'t>(
    alloc: Global,
    cursor: &mut Cursor<'t>,
    wanted: Wanted,
    semicolon: bool,
    left: usize,
    log: &mut Log<'t>,
) -> Result<Inside, AllocError>
    ensures { Finds inside_view
        (with_value (clipped_block wanted)
        (spec.inside_unless semicolon (spec.inside left) (log_view log.old) cursor.old)) result
        (log_view log.new) cursor.new }
{
    if semicolon {
        return Ok(no_inside(alloc, false));
    }
    module_inside(alloc, cursor, wanted, left, log)
}

/// Takes a module, behind `mod`.
#[cycle(items)]
#[tactic(auto, using(crate::proofs::ClippedItems::module_clipped))]
fn module<'t>(
    alloc: Global,
    cursor: &mut Cursor<'t>,
    wanted: Wanted,
    left: usize,
    front: Front,
    log: &mut Log<'t>,
) -> Result<Item, AllocError>
    ensures { Finds item_view
        (with_value (wanted_item wanted (map meta_view front.attrs.items))
        (spec.module_item left (without_attributes (front_view front)) (log_view log.old) cursor.old))
        result (log_view log.new) cursor.new }
{
    let named = item_name(alloc, cursor)?;
    let semicolon = cursor.eat(b';');
    let mut more = Log::new(alloc);
    let inside = inside_unless(alloc, cursor, wanted, semicolon, left, &mut more)?;
    let end = cursor.last_end();
    let is_ended = semicolon || inside.is_ended;
    push_module(
        log,
        depth_of(left),
        front.start,
        end,
        &named,
        is_ended,
        more,
    )?;
    module_item(alloc, front, named.name, semicolon, inside)
}

/// An item behind what stands in front of it, or none: then tokens are passed over.
#[cycle(items)]
#[tactic(auto, using(crate::proofs::ClippedItems::behind_front_clipped))]
pub(crate) fn behind_front<'t>(
    alloc: Global,
    cursor: &mut Cursor<'t>,
    wanted: Wanted,
    left: usize,
    front: Front,
    log: &mut Log<'t>,
) -> Result<Option<Item>, AllocError>
    ensures { Finds (option_map item_view)
        (wanted_behind wanted (spec.behind_front left) (front_view front)
        (log_view log.old) cursor.old) result (log_view log.new) cursor.new }
{
    match front.head {
        Head::Module => {
            let item = module(alloc, cursor, wanted, left, front, log)?;
            Ok(Some(item))
        }
        Head::ExternBlock => {
            let item = extern_block(alloc, cursor, wanted, depth_of(left), front, log)?;
            Ok(Some(item))
        }
        _ => leaf_turn(alloc, cursor, wanted, depth_of(left), front, log),
    }
}

/// An item, or none.
#[cycle(items)]
#[tactic(auto, using(crate::proofs::ClippedItems::turn_clipped))]
fn turn<'t>(
    alloc: Global,
    cursor: &mut Cursor<'t>,
    wanted: Wanted,
    left: usize,
    log: &mut Log<'t>,
) -> Result<Option<Item>, AllocError>
    ensures { Finds (option_map item_view)
        (with_value (clipped_item_if wanted)
        (spec.turn left (log_view log.old) cursor.old)) result (log_view log.new) cursor.new }
{
    if cursor.is_at_end() {
        log.push_problem(ProblemKind::Unmatched, cursor.at())?;
        cursor.bump();
        return Ok(None);
    }
    let front = wanted_front(alloc, cursor, wanted)?;
    behind_front(alloc, cursor, wanted, left, front, log)
}

/// The items of a file, or of a module.
#[cycle(items)]
#[tactic(auto, unfolding(crate::specs::Items::finding), using(crate::proofs::Steps::finding_stop))]
pub(crate) fn items<'t>(
    alloc: Global,
    cursor: &mut Cursor<'t>,
    wanted: Wanted,
    is_top: bool,
    left: usize,
    log: &mut Log<'t>,
) -> Result<Vec<Item>, AllocError>
    ensures { Finds (λ v. map item_view v.items)
        (spec.finding (spec.is_list_end is_top) (clipped_turn wanted (spec.turn left))
        (log_view log.old) cursor.old) result
        (log_view log.new) cursor.new }
{
    let mut items = Vec::new(alloc);
    let most = Cursor::most_turns();
    for _turn in 0..most {
        if is_list_end(cursor, is_top) {
            return Ok(items);
        }
        let past = cursor.last_end();
        let item = turn(alloc, cursor, wanted, left, log)?;
        push_some(&mut items, item)?;
        cursor.pass_beyond(past);
    }
    Ok(items)
}
