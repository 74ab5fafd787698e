//! Items with paths that have no meaning, or with attributes that stand too deep.

ghost use Rattle.std.specs.Prelude.{◌≡◌, ◌++◌, OnOk, map, option_map};
ghost use Rattle.hir_input.specs.Attr.{meta_view};
ghost use Rattle.hir_input.specs.Syntax.{item_view, extern_item_view, items_view, items_from, struct_view, use_view};
ghost use Rattle.hir_input.specs.Syntax.{call_view, fields_view, syntax_view};
ghost use Rattle.hir_input.specs.UseTreeView.{use_tree_view};
ghost use Rattle.source_problems.specs.Metas.{attribute_problems};
ghost use Rattle.source_problems.specs.Items.{in_preorder, held_items};
ghost use Rattle.source_problems.specs.Items as spec;
ghost use Rattle.source_problems.specs.Inner.{AddsHere, Walks};

use crate::metas::push_attributes;
use crate::problem::{Found, SourceProblemKind};
use crate::use_trees::push_tree;
use hir_input::Meta;
use hir_input::ast::{
    ExternBlock, ExternItem, Item, MacroCall, Module, PathNode, Struct, StructKind, Syntax,
    TupleField, Use, UseTree, Visibility,
};
use rust_items::ItemPlace;
use std::alloc::AllocError;

/// The places of the items that are to come.
#[derive(Clone, Copy)]
pub(crate) struct Places<'a> {
    pub left: &'a [ItemPlace],
}

impl Places<'_> {
    /// Where the next item begins.
    fn next(&mut self) -> usize
        ensures at { result ≡ spec.next_start self.old.left.now }
        ensures left { self.new.left.now ≡ spec.others self.old.left.now }
    {
        match self.left {
            [place, others @ ..] => {
                self.left = others;
                place.range.start
            }
            [] => 0,
        }
    }
}

fn push_visibility(visibility: &Option<Visibility>, found: &mut Found) -> Result<(), AllocError>
    ensures { OnOk result (AddsHere found.old found.new
        (spec.visibility_problems found.old.at visibility.now)) }
{
    match visibility {
        Some(Visibility::InPath(PathNode::Unreadable)) => {
            found.push(SourceProblemKind::VisibilityPath)
        }
        _ => Ok(()),
    }
}

fn push_fields(fields: &[TupleField], found: &mut Found) -> Result<(), AllocError>
    ensures { OnOk result (AddsHere found.old found.new
        (spec.fields_problems found.old.at (map (λ f. f.visibility) fields.now))) }
{
    for field in fields {
        push_visibility(&field.visibility, found)?;
    }
    Ok(())
}

fn push_struct_fields(kind: &StructKind, found: &mut Found) -> Result<(), AllocError>
    ensures { OnOk result (AddsHere found.old found.new
        (spec.struct_problems found.old.at (fields_view kind.now))) }
{
    match kind {
        StructKind::Tuple(fields) => push_fields(fields, found),
        StructKind::Record => Ok(()),
        StructKind::Unit => Ok(()),
    }
}

/// Adds what is wrong with the attributes and the visibility of an item.
#[tactic(auto, using(std::proofs::Common::append_assoc))]
fn push_named(
    attrs: &[Meta],
    visibility: &Option<Visibility>,
    found: &mut Found,
) -> Result<(), AllocError>
    ensures { let attributes = attribute_problems found.old.at (map meta_view attrs.now) in
        let all = attributes ++ spec.visibility_problems found.old.at visibility.now in
        OnOk result (AddsHere found.old found.new all) }
{
    push_attributes(attrs, found)?;
    push_visibility(visibility, found)
}

#[tactic(auto, using(std::proofs::Common::append_assoc))]
fn push_struct(item: &Struct, found: &mut Found) -> Result<(), AllocError>
    ensures { let named = spec.named_problems found.old.at (struct_view item.now) in
        let all = named ++ spec.struct_problems found.old.at (fields_view item.now.kind) in
        OnOk result (AddsHere found.old found.new all) }
{
    push_named(&item.attrs, &item.visibility, found)?;
    push_struct_fields(&item.kind, found)
}

fn push_some_tree(tree: &Option<UseTree>, found: &mut Found) -> Result<(), AllocError>
    ensures { OnOk result (AddsHere found.old found.new
        (spec.some_tree_problems found.old.at (option_map use_tree_view tree.now))) }
{
    match tree {
        Some(tree) => push_tree(tree, found),
        None => Ok(()),
    }
}

#[tactic(auto, using(std::proofs::Common::append_assoc))]
fn push_use(item: &Use, found: &mut Found) -> Result<(), AllocError>
    ensures { OnOk result (AddsHere found.old found.new
        (spec.use_problems found.old.at (use_view item.now))) }
{
    push_named(&item.attrs, &item.visibility, found)?;
    push_some_tree(&item.use_tree, found)
}

#[tactic(auto, using(std::proofs::Common::append_assoc))]
fn push_call(item: &MacroCall, found: &mut Found) -> Result<(), AllocError>
    ensures { OnOk result (AddsHere found.old found.new
        (spec.call_problems found.old.at (call_view item.now))) }
{
    push_attributes(&item.attrs, found)?;
    found.push_path(SourceProblemKind::MacroPath, &item.path)
}

/// Adds what is wrong with an item, without those that it holds.
#[tactic(auto, using(hir_input::proofs::SyntaxViews::item_views, crate::proofs::Views::own_parents))]
fn push_own(item: &Item, found: &mut Found) -> Result<(), AllocError>
    ensures { OnOk result (AddsHere found.old found.new
        (spec.own_problems found.old.at (item_view item.now))) }
{
    match item {
        Item::AsmExpr(item) => push_attributes(&item.attrs, found),
        Item::Const(item) => push_named(&item.attrs, &item.visibility, found),
        Item::Enum(item) => push_named(&item.attrs, &item.visibility, found),
        Item::ExternBlock(item) => push_attributes(&item.attrs, found),
        Item::ExternCrate(item) => push_named(&item.attrs, &item.visibility, found),
        Item::Fn(item) => push_named(&item.attrs, &item.visibility, found),
        Item::Impl(item) => push_attributes(&item.attrs, found),
        Item::MacroCall(item) => push_call(item, found),
        Item::MacroDef(item) => push_named(&item.attrs, &item.visibility, found),
        Item::MacroRules(item) => push_attributes(&item.attrs, found),
        Item::Module(item) => push_named(&item.attrs, &item.visibility, found),
        Item::Static(item) => push_named(&item.attrs, &item.visibility, found),
        Item::Struct(item) => push_struct(item, found),
        Item::Trait(item) => push_named(&item.attrs, &item.visibility, found),
        Item::TypeAlias(item) => push_named(&item.attrs, &item.visibility, found),
        Item::Union(item) => push_named(&item.attrs, &item.visibility, found),
        Item::Use(item) => push_use(item, found),
    }
}

/// The same of an item of an extern block, which holds none.
fn push_extern_item(item: &ExternItem, found: &mut Found) -> Result<(), AllocError>
    ensures { OnOk result (AddsHere found.old found.new
        (spec.own_problems found.old.at (extern_item_view item.now))) }
{
    match item {
        ExternItem::Fn(item) => push_named(&item.attrs, &item.visibility, found),
        ExternItem::MacroCall(item) => push_call(item, found),
        ExternItem::Static(item) => push_named(&item.attrs, &item.visibility, found),
        ExternItem::TypeAlias(item) => push_named(&item.attrs, &item.visibility, found),
    }
}

/// Adds what is wrong with the items of an extern block.
fn push_extern_items(
    items: &[ExternItem],
    places: &mut Places<'_>,
    found: &mut Found,
) -> Result<(), AllocError>
    ensures { OnOk result (Walks (in_preorder (items_from (map extern_item_view items.now)))
        found.old.problems.items places.old.left.now found.new.problems.items places.new.left.now) }
{
    for item in items {
        found.at = places.next();
        push_extern_item(item, found)?;
    }
    Ok(())
}

/// Adds what is wrong with what an item holds.
#[cycle(items)]
fn push_held(item: &Item, places: &mut Places<'_>, found: &mut Found) -> Result<(), AllocError>
    ensures { OnOk result (Walks (held_items (item_view item.now))
        found.old.problems.items places.old.left.now found.new.problems.items places.new.left.now) }
{
    match item {
        Item::Module(
            Module {
                items: Some(items),
                ..
            },
        ) => push_items(items, places, found),
        Item::ExternBlock(
            ExternBlock {
                items: Some(items),
                ..
            },
        ) => { push_extern_items(items, places, found) }
        _ => Ok(()),
    }
}

/// Adds what is wrong with items and with those that they hold.
#[cycle(items)]
pub(crate) fn push_items(
    items: &[Item],
    places: &mut Places<'_>,
    found: &mut Found,
) -> Result<(), AllocError>
    ensures { OnOk result (Walks (in_preorder (items_view items.now))
        found.old.problems.items places.old.left.now found.new.problems.items places.new.left.now) }
{
    for item in items {
        found.at = places.next();
        push_own(item, found)?;
        push_held(item, places, found)?;
    }
    Ok(())
}

/// Adds what is wrong with the syntax of a file, whose items have these places.
pub(crate) fn push_syntax(
    syntax: &Syntax,
    places: &[ItemPlace],
    found: &mut Found,
) -> Result<(), AllocError>
    ensures { OnOk result (found.new.problems.items ≡ found.old.problems.items
        ++ spec.syntax_problems (syntax_view syntax.now) places.now) }
{
    let Syntax::SourceFile { attrs, items } = syntax else {
        return Ok(());
    };
    let mut places = Places { left: places };
    found.at = 0;
    push_attributes(attrs, found)?;
    push_items(items, &mut places, found)?;
    Ok(())
}
