//! Lowering of extern blocks.
ghost use Rattle.hir_input.specs.Syntax.{extern_block_view, extern_item_view};
ghost use Rattle.item_tree.specs.Inner.Growth.{IsWithinLimits, IsLowered, AreLowered, items_below};

use crate::items::{ExternBlock, ModItem};
use crate::lower::each::{LowerNode, lower_each};
use crate::lower::macros::lower_macro_call;
use crate::lower::named::lower_named;
use crate::lower::{Ctx, LoweredItem, LoweredItems, push_item};
use crate::rows::Rows;
use hir_input::ast::{self, PlainKind};
use std::alloc::Global;

// An extern block without a list has no items.
pub(super) fn lower_extern_block(
    ctx: Ctx,
    rows: &mut Rows,
    block_node: &ast::ExternBlock,
) -> LoweredItem
    requires { IsWithinLimits rows.old }
    ensures { IsLowered ctx.entry rows.old rows.new (extern_block_view block_node.now) result }
{
    let children = lower_block_items(ctx, rows, block_node)?;
    let item = ModItem::ExternBlock(ExternBlock { children });
    push_item!(ctx, rows, block_node, item)
}

fn lower_block_items(ctx: Ctx, rows: &mut Rows, block_node: &ast::ExternBlock) -> LoweredItems
    requires { IsWithinLimits rows.old }
    ensures { AreLowered ctx.entry rows.old rows.new
        (items_below (extern_block_view block_node.now)) result }
{
    match &block_node.items {
        Some(items) => lower_each(ctx, rows, items),
        None => Ok(Vec::new(ctx.alloc)),
    }
}

impl LowerNode for ast::ExternItem {
    ghost seen = { extern_item_view };

    fn lower(&self, ctx: Ctx, rows: &mut Rows) -> LoweredItem {
        match self {
            ast::ExternItem::Fn(node) => lower_named(ctx, rows, PlainKind::Fn, node),
            ast::ExternItem::MacroCall(node) => lower_macro_call(ctx, rows, node),
            ast::ExternItem::Static(node) => lower_named(ctx, rows, PlainKind::Static, node),
            ast::ExternItem::TypeAlias(node) => lower_named(ctx, rows, PlainKind::TypeAlias, node),
        }
    }
}
