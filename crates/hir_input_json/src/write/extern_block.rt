//! Extern blocks as JSON.
ghost use Rattle.std.specs.Prelude.{map, option_map};
ghost use Rattle.serde_json.specs.View.{view};
ghost use Rattle.hir_input.specs.Syntax.{extern_block_view, extern_item_view, items_from};
ghost use Rattle.hir_input_json.specs.Writing.Items.{extern_item_data, extern_items_data, item_data, listed_data};
ghost use Rattle.hir_input_json.specs.Writing.Writes.{Writes, WritesEach};

use crate::each_value;
use crate::write::fault::{WriteFault, Written};
use crate::write::kinds::call_value;
use crate::write::node::{node, node_members, node_of};
use crate::write::object::with;
use crate::write::plain::plain_value;
use crate::write::values::object;
use hir_input::ast::{ExternBlock, ExternItem};
use serde_json::Value;
use std::alloc::Global;

fn extern_item_value(alloc: Global, bodies: bool, item: &ExternItem) -> Written
    ensures { Writes view result (extern_item_data bodies (extern_item_view item.now)) }
{
    match item {
        ExternItem::Fn(item) => plain_value(alloc, bodies, "fn", item),
        ExternItem::MacroCall(item) => call_value(alloc, bodies, item),
        ExternItem::Static(item) => plain_value(alloc, bodies, "static", item),
        ExternItem::TypeAlias(item) => plain_value(alloc, bodies, "type_alias", item),
    }
}

#[tactic(auto, using(crate::proofs::Writing::Lists::lists))]
fn extern_item_values(
    alloc: Global,
    bodies: bool,
    extern_items: &[ExternItem],
) -> Result<Vec<Value>, WriteFault>
    ensures { WritesEach result
        (extern_items_data bodies (items_from (map extern_item_view extern_items.now))) }
{
    each_value!(alloc, item in extern_items, extern_item_value(alloc, bodies, item))
}

// The items of an extern block, null where no list is written.
fn list_or_null(alloc: Global, bodies: bool, list: &Option<Vec<ExternItem>>) -> Written
    ensures { Writes view result
        (listed_data (extern_items_data bodies)
        (option_map (λ v. map extern_item_view v.items) list.now)) }
{
    match list {
        None => Ok(Value::Null),
        Some(list) => Ok(Value::from(extern_item_values(alloc, bodies, list)?)),
    }
}

#[tactic(auto, using(crate::proofs::Writing::Items::extern_block_listed))]
pub(crate) fn extern_block_value(alloc: Global, bodies: bool, block: &ExternBlock) -> Written
    ensures { Writes view result (item_data bodies (extern_block_view block.now)) }
{
    let items = list_or_null(alloc, bodies, &block.items)?;
    let node = node!(alloc, bodies, block)?;
    Ok(object!(alloc, node_members(alloc, "extern_block", node)?, "items": items))
}
