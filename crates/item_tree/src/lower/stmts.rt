//! Lowering of statements.
ghost use Rattle.hir_input.specs.Syntax.{stmt_items, stmts_view, tail_view};
ghost use Rattle.item_tree.specs.Inner.Growth.{IsWithinLimits, IsLowered, AreLowered};
ghost use Rattle.item_tree.specs.Inner.Statements.{stmt_item, tail_item};

use crate::lower::each::{LowerNode, lower_each};
use crate::lower::macros::lower_macro_call;
use crate::lower::{Ctx, LoweredItem, LoweredItems, lower_item};
use crate::rows::Rows;
use hir_input::ast;

// The items of statements and, last, of their tail.
pub(super) fn lower_stmts(
    ctx: Ctx,
    rows: &mut Rows,
    stmts: &[ast::Stmt],
    tail: &ast::Tail,
) -> LoweredItems
    requires { IsWithinLimits rows.old }
    ensures { AreLowered ctx.entry rows.old rows.new
        (stmt_items (stmts_view stmts.now) (tail_view tail.now)) result }
{
    let mut ids = lower_each(ctx, rows, stmts)?;
    if let Some(id) = lower_tail(ctx, rows, tail)? {
        ids.push(id)?;
    }
    Ok(ids)
}

impl LowerNode for ast::Stmt {
    ghost seen = { stmt_item };

    fn lower(&self, ctx: Ctx, rows: &mut Rows) -> LoweredItem {
        match self {
            ast::Stmt::Item(item) => lower_item(ctx, rows, item),
            ast::Stmt::MacroCall(node) => lower_macro_call(ctx, rows, node),
            ast::Stmt::Other => Ok(None),
        }
    }
}

fn lower_tail(ctx: Ctx, rows: &mut Rows, tail: &ast::Tail) -> LoweredItem
    requires { IsWithinLimits rows.old }
    ensures { IsLowered ctx.entry rows.old rows.new (tail_item tail.now) result }
{
    match tail {
        ast::Tail::MacroCall(node) => lower_macro_call(ctx, rows, node),
        ast::Tail::Nothing | ast::Tail::Other => Ok(None),
    }
}
