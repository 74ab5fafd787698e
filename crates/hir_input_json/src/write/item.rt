//! Items as JSON.
ghost use Rattle.std.specs.Prelude.{map};
ghost use Rattle.serde_json.specs.View.{view};
ghost use Rattle.hir_input.specs.Syntax.{item_view, items_view as items_seen, module_view, named_from};
ghost use Rattle.hir_input_json.specs.Writing.Items.{item_data, items_data, module_data};
ghost use Rattle.hir_input_json.specs.Writing.Writes.{Writes, WritesEach};

use crate::each_value;
use crate::write::extern_block::extern_block_value;
use crate::write::fault::{WriteFault, Written};
use crate::write::kinds::{
    asm_value, call_value, extern_crate_value, impl_value, macro_rules_value, struct_value,
    use_value,
};
use crate::write::node::{named_members, named_of, node, node_of};
use crate::write::object::with;
use crate::write::plain::plain_value;
use crate::write::values::object;
use hir_input::ast::{Item, Module};
use serde_json::Value;
use std::alloc::Global;

// A module, whose items are written.
fn module_with(alloc: Global, bodies: bool, item: &Module, items: Value) -> Written
    ensures { let m = item.now in
        let named = named_from m.hash m.number m.attrs.items m.name m.visibility m.body in
        Writes view result (module_data bodies named m.semicolon (view items)) }
{
    let node = node!(alloc, bodies, item)?;
    let named = named_of(alloc, node, &item.name, &item.visibility)?;
    let members = named_members(alloc, "module", named)?;
    let semicolon = Value::from(item.semicolon);
    Ok(object!(alloc, members, "items": items, "semicolon": semicolon))
}

#[cycle(items)]
#[tactic(auto, using(crate::proofs::Writing::Items::modules))]
fn module_value(alloc: Global, bodies: bool, item: &Module) -> Written
    ensures { Writes view result (item_data bodies (module_view item.now)) }
{
    match &item.items {
        None => module_with(alloc, bodies, item, Value::Null),
        Some(items) => {
            let items = Value::from(item_values(alloc, bodies, items)?);
            module_with(alloc, bodies, item, items)
        }
    }
}

#[cycle(items)]
#[tactic(auto, using(hir_input::proofs::SyntaxViews::item_views))]
pub(crate) fn item_value(alloc: Global, bodies: bool, item: &Item) -> Written
    ensures { Writes view result (item_data bodies (item_view item.now)) }
{
    match item {
        Item::AsmExpr(item) => asm_value(alloc, bodies, item),
        Item::Const(item) => plain_value(alloc, bodies, "const", item),
        Item::Enum(item) => plain_value(alloc, bodies, "enum", item),
        Item::ExternBlock(item) => extern_block_value(alloc, bodies, item),
        Item::ExternCrate(item) => extern_crate_value(alloc, bodies, item),
        Item::Fn(item) => plain_value(alloc, bodies, "fn", item),
        Item::Impl(item) => impl_value(alloc, bodies, item),
        Item::MacroCall(item) => call_value(alloc, bodies, item),
        Item::MacroDef(item) => plain_value(alloc, bodies, "macro_def", item),
        Item::MacroRules(item) => macro_rules_value(alloc, bodies, item),
        Item::Module(item) => module_value(alloc, bodies, item),
        Item::Static(item) => plain_value(alloc, bodies, "static", item),
        Item::Struct(item) => struct_value(alloc, bodies, item),
        Item::Trait(item) => plain_value(alloc, bodies, "trait", item),
        Item::TypeAlias(item) => plain_value(alloc, bodies, "type_alias", item),
        Item::Union(item) => plain_value(alloc, bodies, "union", item),
        Item::Use(item) => use_value(alloc, bodies, item),
    }
}

#[cycle(items)]
#[tactic(auto, using(crate::proofs::Writing::Lists::lists))]
pub(crate) fn item_values(
    alloc: Global,
    bodies: bool,
    items: &[Item],
) -> Result<Vec<Value>, WriteFault>
    ensures { WritesEach result (items_data bodies (items_seen items.now)) }
{
    each_value!(alloc, item in items, item_value(alloc, bodies, item))
}
