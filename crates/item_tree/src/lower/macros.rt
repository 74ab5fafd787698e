//! Lowering of macro calls and of macros by example.
ghost use Rattle.hir_input.specs.Syntax.{macro_call, call_view, macro_rules, macro_rules_view};
ghost use Rattle.item_tree.specs.Inner.Growth.{IsWithinLimits, IsLowered};

use crate::items::{MacroCall, MacroRules, ModItem};
use crate::lower::{Ctx, LoweredItem, push_item};
use crate::rows::Rows;
use hir_input::ast;
use std::alloc::Global;

// A macro call is kept where its path is there and can be read.
pub(super) fn lower_macro_call(ctx: Ctx, rows: &mut Rows, call_node: &ast::MacroCall) -> LoweredItem
    requires { IsWithinLimits rows.old }
    ensures { IsLowered ctx.entry rows.old rows.new (macro_call (call_view call_node.now)) result }
{
    let Some(ast::PathNode::Readable(path)) = &call_node.path else {
        return Ok(None);
    };
    let item = ModItem::MacroCall(MacroCall {
        path: path.clone()?,
        expand_to: call_node.expand_to,
        ctxt: call_node.ctxt,
    });
    push_item!(ctx, rows, call_node, item)
}

pub(super) fn lower_macro_rules(
    ctx: Ctx,
    rows: &mut Rows,
    macro_node: &ast::MacroRules,
) -> LoweredItem
    requires { IsWithinLimits rows.old }
    ensures { IsLowered ctx.entry rows.old rows.new
        (macro_rules (macro_rules_view macro_node.now) macro_node.now.name) result }
{
    let Some(name) = &macro_node.name else {
        return Ok(None);
    };
    let name = name.clone()?;
    let item = ModItem::MacroRules(MacroRules { name });
    push_item!(ctx, rows, macro_node, item)
}
