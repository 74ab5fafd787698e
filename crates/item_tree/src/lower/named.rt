//! Lowering of items that have a name and a visibility.
ghost use Rattle.std.specs.Prelude.{◌≡◌};
ghost use Rattle.hir_input.specs.Syntax.{plain_item, const_item, named_view, extern_crate, extern_crate_view};
ghost use Rattle.item_tree.specs.Layout.{leaf_row};
ghost use Rattle.item_tree.specs.Node.{plain};
ghost use Rattle.item_tree.specs.Inner.Growth.{IsWithinLimits, IsLowered};
ghost use Rattle.item_tree.specs.Stored.{item_row};

use crate::items::{self, Const, ExternCrate, ModItem};
use crate::lower::use_tree::lower_alias;
use crate::lower::{Ctx, LoweredItem, lower_visibility, push_item};
use crate::rows::Rows;
use crate::visibility::RawVisibilityId;
use hir_input::ast::PlainKind;
use hir_input::{Name, ast};
use std::alloc::Global;

// An item that differs from others in nothing but the kind.
fn plain_item(kind: PlainKind, name: Name, visibility: RawVisibilityId) -> ModItem
    ensures { item_row result ≡ leaf_row (plain kind name visibility) }
{
    match kind {
        PlainKind::Enum => ModItem::Enum(items::Enum { name, visibility }),
        PlainKind::Fn => ModItem::Function(items::Function { name, visibility }),
        PlainKind::MacroDef => ModItem::Macro2(items::Macro2 { name, visibility }),
        PlainKind::Static => ModItem::Static(items::Static { name, visibility }),
        PlainKind::Trait => ModItem::Trait(items::Trait { name, visibility }),
        PlainKind::TypeAlias => ModItem::TypeAlias(items::TypeAlias { name, visibility }),
        PlainKind::Union => ModItem::Union(items::Union { name, visibility }),
    }
}

pub(super) fn lower_named(
    ctx: Ctx,
    rows: &mut Rows,
    kind: PlainKind,
    node: &ast::NamedNode,
) -> LoweredItem
    requires { IsWithinLimits rows.old }
    ensures { IsLowered ctx.entry rows.old rows.new
        (plain_item kind (named_view node.now)) result }
{
    let Some(name) = &node.name else {
        return Ok(None);
    };
    let visibility = lower_visibility(ctx.alloc, rows, node.visibility.as_ref())?;
    let item = plain_item(kind, name.clone()?, visibility);
    push_item!(ctx, rows, node, item)
}

// A constant is kept without a name too.
pub(super) fn lower_const(ctx: Ctx, rows: &mut Rows, const_node: &ast::Const) -> LoweredItem
    requires { IsWithinLimits rows.old }
    ensures { IsLowered ctx.entry rows.old rows.new
        (const_item (named_view const_node.now)) result }
{
    let visibility = lower_visibility(ctx.alloc, rows, const_node.visibility.as_ref())?;
    let name = const_node.name.clone()?;
    let item = ModItem::Const(Const { name, visibility });
    push_item!(ctx, rows, const_node, item)
}

pub(super) fn lower_extern_crate(
    ctx: Ctx,
    rows: &mut Rows,
    crate_node: &ast::ExternCrate,
) -> LoweredItem
    requires { IsWithinLimits rows.old }
    ensures { IsLowered ctx.entry rows.old rows.new
        (extern_crate (extern_crate_view crate_node.now) crate_node.now.rename) result }
{
    let Some(name) = &crate_node.name else {
        return Ok(None);
    };
    let visibility = lower_visibility(ctx.alloc, rows, crate_node.visibility.as_ref())?;
    let item = ModItem::ExternCrate(ExternCrate {
        name: name.clone()?,
        visibility,
        alias: lower_alias(crate_node.rename.as_ref())?,
    });
    push_item!(ctx, rows, crate_node, item)
}
