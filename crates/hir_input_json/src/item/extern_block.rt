//! Extern blocks, read from their forms.
ghost use Rattle.std.specs.Prelude.{◌≡◌, map, option_map};
ghost use Rattle.serde_json.specs.View.{view, items_view};
ghost use Rattle.hir_input.specs.Syntax.{extern_item_view, item_view};
ghost use Rattle.hir_input_json.specs.Forms.{each, list_of, maybe};
ghost use Rattle.hir_input_json.specs.Held.{object_held};
ghost use Rattle.hir_input_json.specs.Items.{extern_block_form, extern_item as extern_item_form};
ghost use Rattle.hir_input_json.specs.Reads.{Reads};

use crate::each_of;
use crate::fault::{Fault, ReadIn};
use crate::item::macros::macro_call_of;
use crate::item::node::{named_at, named_by, node_at, with_name, with_node};
use crate::member::{Members, array_of, maybe_list_of, members_of, take_member, word_at};
use hir_input::ast::{ExternBlock, ExternItem, Item, NamedNode};
use serde_json::Value;
use std::alloc::Global;

#[tactic(auto, unfolding(crate::specs::Items::extern_item))]
fn extern_item_of(alloc: Global, value: Value) -> Result<ExternItem, Fault>
    ensures { Reads extern_item_view result (extern_item_form (view value)) }
{
    let mut members = members_of(alloc, value)?;
    extern_item_in(alloc, &mut members)
}

#[tactic(auto, unfolding(crate::specs::Items::extern_item), using(hir_input::proofs::SyntaxViews::item_views))]
fn extern_item_in(alloc: Global, members: &mut Members) -> Result<ExternItem, Fault>
    ensures { Reads extern_item_view result (extern_item_form (object_held members.old)) }
{
    named_by!(alloc, members, ExternItem { "fn": Fn, "static": Static, "type_alias": TypeAlias },
        "macro_call" => Ok(ExternItem::MacroCall(macro_call_of(alloc, members)?)),
        _ => Err(Fault::at(alloc, "is")))
}

fn extern_items_of(alloc: Global, values: Vec<Value>) -> Result<Vec<ExternItem>, Fault>
    ensures { Reads (λ v. map extern_item_view v.items) result
        (each extern_item_form (items_view values.items)) }
{
    each_of!(alloc, values, extern_item_of)
}

fn extern_items_in(alloc: Global, list: Option<Value>) -> Result<Option<Vec<ExternItem>>, Fault>
    ensures { Reads (option_map (λ v. map extern_item_view v.items)) result
        (maybe (list_of extern_item_form) (option_map view list)) }
{
    maybe_list_of!(alloc, list, extern_items_of)
}

#[tactic(auto, using(crate::proofs::MemberObjects::field_without, hir_input::proofs::SyntaxViews::item_views))]
pub(crate) fn extern_block_of(alloc: Global, members: &mut Members) -> Result<Item, Fault>
    ensures { Reads item_view result (extern_block_form (object_held members.old)) }
{
    let node = node_at(alloc, members)?;
    let list = take_member(members, "items");
    let items = extern_items_in(alloc, list).in_member(alloc, "items")?;
    Ok(Item::ExternBlock(with_node!(ExternBlock, node, items)))
}
