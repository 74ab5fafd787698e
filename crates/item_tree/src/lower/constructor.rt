//! Lowering of structs and their constructors.
ghost use Rattle.std.specs.Prelude.{◌≡◌, ◌∷◌, [], IfOk, IfErr, OnOk, map, option_copied};
ghost use Rattle.hir_input.specs.Syntax.{struct_item, struct_view, fields_view, tuple_fields};
ghost use Rattle.item_tree.specs.Constructor.{ctor_of, ctor_from, deciding};
ghost use Rattle.item_tree.specs.Layout.{vis_id};
ghost use Rattle.item_tree.specs.Kept.{shape_of};
ghost use Rattle.item_tree.specs.Inner.Growth.{IsWithinLimits, IsLowered, CtorIsLowered, HasId, MeetsAll};
ghost use Rattle.item_tree.specs.Inner.Growth.{sizes_meeting};
ghost use Rattle.item_tree.specs.Size.{IsPassed};
ghost use Rattle.item_tree.specs.Shown.{ctor_ids};
ghost use Rattle.item_tree.specs.Visibility.{read_visibility};

use crate::fault::LowerError;
use crate::items::{FieldsShape, ModItem, Struct, StructValueNsCtor};
use crate::lower::{Ctx, LoweredItem, lower_visibility, push_item};
use crate::rows::Rows;
use crate::visibility::{RawVisibility, RawVisibilityId, visibility_from_ast};
use hir_input::ast;
use indexmap::IndexSet;
use std::alloc::{AllocError, Global};

#[tactic(auto, using(crate::proofs::Constructors::has_id))]
pub(super) fn lower_struct(ctx: Ctx, rows: &mut Rows, struct_node: &ast::Struct) -> LoweredItem
    requires { IsWithinLimits rows.old }
    ensures { IsLowered ctx.entry rows.old rows.new
        (struct_item (struct_view struct_node.now) (fields_view struct_node.now.kind)) result }
{
    let Some(name) = &struct_node.name else {
        return Ok(None);
    };
    let visibility = lower_visibility(ctx.alloc, rows, struct_node.visibility.as_ref())?;
    let value_ns_ctor = lower_ctor(ctx.alloc, rows, struct_node, visibility)?;
    let name = name.clone()?;
    let item = ModItem::Struct(Struct {
        name,
        visibility,
        shape: shape_of(&struct_node.kind),
        value_ns_ctor,
    });
    push_item!(ctx, rows, struct_node, item)
}

fn shape_of(kind: &ast::StructKind) -> FieldsShape
    ensures { result ≡ shape_of (fields_view kind.now) }
{
    match kind {
        ast::StructKind::Record => FieldsShape::Record,
        ast::StructKind::Tuple(_) => FieldsShape::Tuple,
        ast::StructKind::Unit => FieldsShape::Unit,
    }
}

// The constructor of a struct whose own visibility has this id.
fn lower_ctor(
    alloc: Global,
    rows: &mut Rows,
    struct_node: &ast::Struct,
    visibility: RawVisibilityId,
) -> Result<StructValueNsCtor, LowerError>
    requires within { IsWithinLimits rows.old }
    requires own { HasId rows.old (read_visibility struct_node.now.visibility) visibility }
    ensures { CtorIsLowered rows.old rows.new
        (ctor_of (fields_view struct_node.now.kind) (read_visibility struct_node.now.visibility)) result }
{
    match &struct_node.kind {
        ast::StructKind::Record => Ok(StructValueNsCtor::NoValueNsCtor),
        ast::StructKind::Tuple(fields) => {
            lower_tuple_ctor(alloc, rows, struct_node.visibility.as_ref(), fields)
        }
        ast::StructKind::Unit => Ok(StructValueNsCtor::ValueNsCtorWithVis(visibility)),
    }
}

// The constructor of a tuple struct.
#[tactic(auto, using(crate::proofs::Constructors::ctor_vis_from, crate::proofs::Constructors::ctor_map_from))]
fn lower_tuple_ctor(
    alloc: Global,
    rows: &mut Rows,
    own: Option<&ast::Visibility>,
    fields: &[ast::TupleField],
) -> Result<StructValueNsCtor, LowerError>
    requires { IsWithinLimits rows.old }
    ensures { CtorIsLowered rows.old rows.new
        (ctor_of (tuple_fields (map (λ f. f.visibility) fields.now)) (read_visibility (option_copied own.entry)))
        result }
{
    let written = read_visibilities(alloc, own, fields)?;
    let deciding = select_deciding(alloc, written)?;
    let ids = alloc_visibilities(alloc, rows, deciding)?;
    Ok(ctor_from(ids))
}

// The visibility of a struct, and then those of its fields.
fn read_visibilities(
    alloc: Global,
    own: Option<&ast::Visibility>,
    fields: &[ast::TupleField],
) -> Result<Vec<RawVisibility>, AllocError>
    ensures { IfOk result (λ all. all.items ≡
        map read_visibility (option_copied own.entry ∷ map (λ f. f.visibility) fields.now)) }
{
    let mut all = Vec::new(alloc);
    all.push(visibility_from_ast(alloc, own)?)?;
    for field in fields {
        all.push(visibility_from_ast(alloc, field.visibility.as_ref())?)?;
    }
    Ok(all)
}

// Those visibilities that decide who sees what needs all of them.
#[tactic(auto, using(crate::proofs::Arena::meet_distinct, crate::proofs::VisibilityEq::any_raw))]
fn select_deciding(
    alloc: Global,
    written: Vec<RawVisibility>,
) -> Result<IndexSet<RawVisibility>, AllocError>
    ensures { IfOk result (λ set. set.keys ≡ deciding written.items) }
{
    let mut modules = IndexSet::new(alloc);
    let mut in_crate = false;
    for visibility in written {
        match visibility {
            RawVisibility::PubSelf(explicitness) => {
                return one(alloc, RawVisibility::PubSelf(explicitness));
            }
            RawVisibility::PubCrate => in_crate = true,
            RawVisibility::Public => {}
            RawVisibility::Module(_, _) => {
                modules.insert(visibility)?;
            }
        }
    }
    if !modules.is_empty() {
        return Ok(modules);
    }
    if in_crate {
        one(alloc, RawVisibility::PubCrate)
    } else {
        one(alloc, RawVisibility::Public)
    }
}

fn one(alloc: Global, visibility: RawVisibility) -> Result<IndexSet<RawVisibility>, AllocError>
    ensures { IfOk result (λ set. set.keys ≡ visibility ∷ []) }
{
    let mut set = IndexSet::new(alloc);
    set.insert(visibility)?;
    Ok(set)
}

// The ids of visibilities, in order.
fn alloc_visibilities(
    alloc: Global,
    rows: &mut Rows,
    visibilities: IndexSet<RawVisibility>,
) -> Result<Vec<RawVisibilityId>, LowerError>
    requires { IsWithinLimits rows.old }
    ensures met { OnOk result (MeetsAll rows.old rows.new visibilities.keys) }
    ensures given { IfOk result (λ ids.
        ids.items ≡ map (vis_id rows.new.arena) visibilities.keys) }
    ensures fault { IfErr result (IsPassed (sizes_meeting rows.old visibilities.keys)) }
{
    let mut ids = Vec::new(alloc);
    for visibility in visibilities {
        ids.push(rows.alloc_visibility(alloc, visibility)?)?;
    }
    Ok(ids)
}

fn ctor_from(ids: Vec<RawVisibilityId>) -> StructValueNsCtor
    ensures { ctor_ids result ≡ ctor_from ids.items }
{
    match ids.as_slice() {
        [id] => StructValueNsCtor::ValueNsCtorWithVis(*id),
        _ => StructValueNsCtor::ValueNsCtorWithMinVis(ids),
    }
}
