//! Lowering of the nodes of a list.
ghost use Rattle.std.specs.Prelude.{map};
ghost use Rattle.hir_input.specs.Syntax.{items_from};
ghost use Rattle.item_tree.specs.Inner.Growth.{IsWithinLimits, AreLowered};

use crate::lower::{Ctx, LoweredItem, LoweredItems};
use crate::rows::Rows;
use std::alloc::Global;

/// A node of which one item is kept, or none.
pub(super) trait LowerNode {
    ghost use Rattle.hir_input.specs.Syntax.{ItemView};
    ghost use Rattle.item_tree.specs.Inner.Growth.{IsWithinLimits, IsLowered};

    // The item that it is seen as.
    ghost seen: { Self → ItemView };

    fn lower(&self, ctx: Ctx, rows: &mut Rows) -> LoweredItem
        requires { IsWithinLimits rows.old }
        ensures { IsLowered ctx.entry rows.old rows.new (seen self.now) result };
}

// The items of nodes, in order.
pub(super) fn lower_each<T: LowerNode>(ctx: Ctx, rows: &mut Rows, nodes: &[T]) -> LoweredItems
    requires { IsWithinLimits rows.old }
    ensures { AreLowered ctx.entry rows.old rows.new (items_from (map T.seen nodes.now)) result }
{
    let mut ids = Vec::new(ctx.alloc);
    for node in nodes {
        if let Some(id) = node.lower(ctx, rows)? {
            ids.push(id)?;
        }
    }
    Ok(ids)
}
