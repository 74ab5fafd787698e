//! Items, read from their forms.
ghost use Rattle.std.specs.Prelude.{◌≡◌, map, option_map};
ghost use Rattle.serde_json.specs.View.{view, items_view};
ghost use Rattle.hir_input.specs.Syntax.{asm_item, item_view};
ghost use Rattle.hir_input_json.specs.Reading.{reading_map};
ghost use Rattle.hir_input_json.specs.Forms.{each, maybe, list_of};
ghost use Rattle.hir_input_json.specs.Held.{object_held};
ghost use Rattle.hir_input_json.specs.Items.{struct_form, use_form, extern_crate_form, impl_form, macro_call_form};
ghost use Rattle.hir_input_json.specs.Items.{module_form, item as item_form, item_with, named_item as named_item_form};
ghost use Rattle.hir_input_json.specs.Items.{node_form as node_form};
ghost use Rattle.hir_input_json.specs.Reads.{Reads};

mod extern_block;
mod fields;
pub(crate) mod macros;
mod node;

use crate::each_of;
use crate::fault::{Fault, ReadIn};
use crate::item::extern_block::extern_block_of;
use crate::item::fields::struct_kind_at;
use crate::item::macros::{macro_call_of, macro_rules_of};
use crate::item::node::{named_at, named_by, node_at, with_name, with_node};
use crate::member::{Members, array_of, flag_at, maybe_list_of, members_of, take_member, word_at};
use crate::use_tree::{rename_at, use_tree_at};
use crate::visibility::visibility_at;
use hir_input::ast::{AsmExpr, ExternCrate, Impl, Item, Module, NamedNode, Struct, Use};
use serde_json::Value;
use std::alloc::Global;

#[tactic(auto, using(crate::proofs::MemberObjects::field_without, hir_input::proofs::SyntaxViews::item_views))]
fn struct_of(alloc: Global, members: &mut Members) -> Result<Item, Fault>
    ensures { Reads item_view result (struct_form (object_held members.old)) }
{
    let named = named_at(alloc, members)?;
    let kind = struct_kind_at(alloc, members)?;
    Ok(Item::Struct(with_name!(Struct, named, kind)))
}

#[tactic(auto, using(crate::proofs::MemberObjects::field_without, hir_input::proofs::SyntaxViews::item_views))]
fn use_of(alloc: Global, members: &mut Members) -> Result<Item, Fault>
    ensures { Reads item_view result (use_form (object_held members.old)) }
{
    let node = node_at(alloc, members)?;
    let visibility = visibility_at(alloc, members)?;
    let use_tree = use_tree_at(alloc, members)?;
    Ok(Item::Use(with_node!(Use, node, visibility, use_tree)))
}

#[tactic(auto, using(crate::proofs::MemberObjects::field_without, hir_input::proofs::SyntaxViews::item_views))]
fn extern_crate_of(alloc: Global, members: &mut Members) -> Result<Item, Fault>
    ensures { Reads item_view result (extern_crate_form (object_held members.old)) }
{
    let named = named_at(alloc, members)?;
    let rename = rename_at(alloc, members)?;
    Ok(Item::ExternCrate(with_name!(ExternCrate, named, rename)))
}

#[tactic(auto, using(crate::proofs::MemberObjects::field_without, hir_input::proofs::SyntaxViews::item_views))]
fn impl_of(alloc: Global, members: &mut Members) -> Result<Item, Fault>
    ensures { Reads item_view result (impl_form (object_held members.old)) }
{
    let node = node_at(alloc, members)?;
    let is_trait_impl = flag_at(alloc, members, "trait")?;
    Ok(Item::Impl(with_node!(Impl, node, is_trait_impl)))
}

#[tactic(auto, using(hir_input::proofs::SyntaxViews::item_views))]
fn macro_item_of(alloc: Global, members: &mut Members) -> Result<Item, Fault>
    ensures { Reads item_view result (macro_call_form (object_held members.old)) }
{
    Ok(Item::MacroCall(macro_call_of(alloc, members)?))
}

#[tactic(auto, using(hir_input::proofs::SyntaxViews::item_views))]
fn asm_of(alloc: Global, members: &mut Members) -> Result<Item, Fault>
    ensures { Reads item_view result (reading_map asm_item (node_form (object_held members.old))) }
{
    let node = node_at(alloc, members)?;
    Ok(Item::AsmExpr(with_node!(AsmExpr, node)))
}

// An item of a kind that has a name and a visibility, and no keys of its own.
#[tactic(auto, unfolding(crate::specs::Items::named_item), using(hir_input::proofs::SyntaxViews::item_views))]
fn named_item_of(alloc: Global, members: &mut Members) -> Result<Item, Fault>
    ensures { Reads item_view result (named_item_form (object_held members.old)) }
{
    named_by!(alloc, members, Item {
        "fn": Fn, "union": Union, "enum": Enum, "static": Static, "trait": Trait,
        "type_alias": TypeAlias, "macro_def": MacroDef, "const": Const
    }, _ => Err(Fault::at(alloc, "is")))
}

#[cycle(items)]
#[tactic(auto, using(crate::proofs::Items::item_reads_itself))]
pub(crate) fn item_of(alloc: Global, value: Value) -> Result<Item, Fault>
    ensures { Reads item_view result (item_form (view value)) }
{
    let mut members = members_of(alloc, value)?;
    item_in(alloc, &mut members)
}

#[cycle(items)]
#[tactic(auto, using(hir_input::proofs::SyntaxViews::item_views))]
fn item_in(alloc: Global, members: &mut Members) -> Result<Item, Fault>
    ensures { Reads item_view result (item_with item_form (object_held members.old)) }
{
    match word_at(alloc, members, "is")? {
        "struct" => struct_of(alloc, members),
        "module" => module_of(alloc, members),
        "use" => use_of(alloc, members),
        "extern_crate" => extern_crate_of(alloc, members),
        "extern_block" => extern_block_of(alloc, members),
        "impl" => impl_of(alloc, members),
        "macro_call" => macro_item_of(alloc, members),
        "macro_rules" => macro_rules_of(alloc, members),
        "asm" => asm_of(alloc, members),
        _ => named_item_of(alloc, members),
    }
}

#[cycle(items)]
#[tactic(auto, using(crate::proofs::NestedForms::found_depths, hir_input::proofs::SyntaxViews::item_views))]
fn module_of(alloc: Global, members: &mut Members) -> Result<Item, Fault>
    ensures { Reads item_view result (module_form item_form (object_held members.old)) }
{
    let named = named_at(alloc, members)?;
    let semicolon = flag_at(alloc, members, "semicolon")?;
    let list = take_member(members, "items");
    let items = items_in(alloc, list).in_member(alloc, "items")?;
    Ok(Item::Module(with_name!(Module, named, semicolon, items)))
}

#[cycle(items)]
#[tactic(auto, using(crate::proofs::NestedForms::depth_array))]
fn items_in(alloc: Global, list: Option<Value>) -> Result<Option<Vec<Item>>, Fault>
    ensures { Reads (option_map (λ v. map item_view v.items)) result
        (maybe (list_of item_form) (option_map view list)) }
{
    maybe_list_of!(alloc, list, items_of)
}

#[cycle(items)]
pub(crate) fn items_of(alloc: Global, values: Vec<Value>) -> Result<Vec<Item>, Fault>
    ensures { Reads (λ v. map item_view v.items) result (each item_form (items_view values.items)) }
{
    each_of!(alloc, values, item_of)
}
