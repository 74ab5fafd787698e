//! Gives the items of a file their ids, where they stand.

ghost use Rattle.std.specs.Prelude.{◌≡◌, map};
ghost use Rattle.hir_input.specs.Syntax.{call_view, extern_block_view, extern_item_view, item_view, module_view};
ghost use Rattle.hir_input.specs.Syntax.{named_view, stmt_view, tail_view};
ghost use Rattle.rust_items.specs.Blocks as blocks;
ghost use Rattle.rust_items.specs.Ids as spec;
ghost use Rattle.rust_items.specs.Views.{supply_view};

use hir_input::FileAstId;
use hir_input::ast::{ExternBlock, ExternItem, Item, MacroCall, Module, NamedNode, Stmt, Tail};

/// The hash and the number of an id.
#[derive(Clone, Copy)]
pub(crate) struct Numbers {
    pub hash: u16,
    pub number: u32,
}

/// The ids that are not yet given.
#[derive(Clone, Copy)]
pub(crate) struct Supply<'a> {
    pub rest: &'a [FileAstId],
}

impl<'a> Supply<'a> {
    pub(crate) fn take(&mut self) -> Numbers
        ensures { spec.first_numbers (supply_view self.old) ≡ (result, supply_view self.new) }
    {
        match self.rest {
            [id, rest @ ..] => {
                self.rest = rest;
                Numbers {
                    hash: id.hash,
                    number: id.number,
                }
            }
            [] => Numbers { hash: 0, number: 0 },
        }
    }
}

/// Gives a node the hash and the number of an id.
macro_rules! set_id {
    ($node:ident, $id:ident) => {{
        $node.hash = $id.hash;
        $node.number = $id.number;
    }};
}

fn number_named(node: &mut NamedNode, id: Numbers)
    ensures { named_view node.new ≡ spec.numbered_named id (named_view node.old) }
{
    set_id!(node, id);
}

#[tactic(auto, using(hir_input::proofs::SyntaxViews::item_views))]
fn number_extern(item: &mut ExternItem, id: Numbers)
    ensures { extern_item_view item.new ≡ spec.numbered_item id (extern_item_view item.old) }
{
    match item {
        ExternItem::Fn(node) => set_id!(node, id),
        ExternItem::MacroCall(node) => set_id!(node, id),
        ExternItem::Static(node) => set_id!(node, id),
        ExternItem::TypeAlias(node) => set_id!(node, id),
    }
}

fn number_externs(items: &mut [ExternItem], supply: &mut Supply<'_>)
    ensures { spec.list_with_ids (map extern_item_view items.old) (supply_view supply.old)
        ≡ (map extern_item_view items.new, supply_view supply.new) }
{
    for item in items.iter_mut() {
        let id = supply.take();
        number_extern(item, id);
    }
}

#[tactic(auto, using(hir_input::proofs::SyntaxViews::item_views))]
fn number_extern_block(block: &mut ExternBlock, id: Numbers, supply: &mut Supply<'_>)
    ensures { spec.held_with_ids id (extern_block_view block.old) (supply_view supply.old)
        ≡ (extern_block_view block.new, supply_view supply.new) }
{
    set_id!(block, id);
    if let Some(items) = &mut block.items {
        number_externs(items, supply);
    }
}

#[cycle(ids)]
#[tactic(auto, using(hir_input::proofs::SyntaxViews::item_views))]
fn number_module(node: &mut Module, id: Numbers, supply: &mut Supply<'_>)
    ensures { spec.held_with_ids id (module_view node.old) (supply_view supply.old)
        ≡ (module_view node.new, supply_view supply.new) }
{
    set_id!(node, id);
    if let Some(items) = &mut node.items {
        number_items(items, supply);
    }
}

#[cycle(ids)]
#[tactic(auto, using(hir_input::proofs::SyntaxViews::item_views))]
pub(crate) fn number_item(item: &mut Item, supply: &mut Supply<'_>)
    ensures { spec.item_with_ids (item_view item.old) (supply_view supply.old)
        ≡ (item_view item.new, supply_view supply.new) }
{
    let id = supply.take();
    match item {
        Item::Module(node) => number_module(node, id, supply),
        Item::ExternBlock(node) => number_extern_block(node, id, supply),
        Item::Const(node) => number_named(node, id),
        Item::Enum(node) => number_named(node, id),
        Item::ExternCrate(node) => set_id!(node, id),
        Item::Fn(node) => number_named(node, id),
        Item::Impl(node) => set_id!(node, id),
        Item::MacroCall(node) => set_id!(node, id),
        Item::MacroDef(node) => number_named(node, id),
        Item::MacroRules(node) => set_id!(node, id),
        Item::Static(node) => number_named(node, id),
        Item::Struct(node) => set_id!(node, id),
        Item::Trait(node) => number_named(node, id),
        Item::TypeAlias(node) => number_named(node, id),
        Item::Union(node) => number_named(node, id),
        Item::Use(node) => set_id!(node, id),
        Item::AsmExpr(_) => {}
    }
}

/// Gives items their ids, in preorder.
#[cycle(ids)]
fn number_items(items: &mut [Item], supply: &mut Supply<'_>)
    ensures { spec.list_with_ids (map item_view items.old) (supply_view supply.old)
        ≡ (map item_view items.new, supply_view supply.new) }
{
    for item in items.iter_mut() {
        number_item(item, supply);
    }
}

/// Gives a macro call its id.
fn number_call(node: &mut MacroCall, supply: &mut Supply<'_>)
    ensures { blocks.call_with_id (call_view node.old) (supply_view supply.old)
        ≡ (call_view node.new, supply_view supply.new) }
{
    let id = supply.take();
    set_id!(node, id);
}

fn number_stmt(stmt: &mut Stmt, supply: &mut Supply<'_>)
    ensures { blocks.stmt_with_ids (stmt_view stmt.old) (supply_view supply.old)
        ≡ (stmt_view stmt.new, supply_view supply.new) }
{
    match stmt {
        Stmt::Item(item) => number_item(item, supply),
        Stmt::MacroCall(node) => number_call(node, supply),
        Stmt::Other => {}
    }
}

/// Gives statements their ids, in preorder.
pub(crate) fn number_stmts(stmts: &mut [Stmt], supply: &mut Supply<'_>)
    ensures { blocks.stmts_with_ids (map stmt_view stmts.old) (supply_view supply.old)
        ≡ (map stmt_view stmts.new, supply_view supply.new) }
{
    for stmt in stmts.iter_mut() {
        number_stmt(stmt, supply);
    }
}

/// Gives what stands behind the last statement its id.
pub(crate) fn number_tail(tail: &mut Tail, supply: &mut Supply<'_>)
    ensures { tail_view tail.new ≡ blocks.tail_with_id (tail_view tail.old) (supply_view supply.old) }
{
    if let Tail::MacroCall(node) = tail {
        number_call(node, supply);
    }
}

/// Items with their ids.
pub(crate) fn numbered_items(mut items: Vec<Item>, ids: &[FileAstId]) -> Vec<Item>
    ensures { map item_view result.items
        ≡ (spec.list_with_ids (map item_view items.items) ids.now).0 }
{
    let mut supply = Supply { rest: ids };
    number_items(&mut items, &mut supply);
    items
}
