//! The walk of a crate's trees: what each item adds to its table.
ghost use Rattle.std.specs.Prelude.{◌≡◌, OnOk, Some, option_map, flat_map};
ghost use Rattle.hir_input.specs.Cfg.{cfg_view};
ghost use Rattle.item_tree.specs.{Shown.IsContained, Shown.lent_kind, Walk.AreContained};
ghost use Rattle.def_map.specs.Inner.Walking.{collected_in, id_rows, lent_inside, lent_other, lent_own, lent_plain};
ghost use Rattle.def_map.specs.Inner.Walking.{plain_rows, plain_view, AddsRows};
ghost use Rattle.def_map.specs.Tables as spec;
ghost use Rattle.def_map.specs.Views.{sources_view};

use crate::attributes::{Marks, marks_of};
use crate::ctx::Ctx;
use crate::kinds::Visibility;
use crate::push::{
    Owner, Place, Row, crate_name, push_call, push_const, push_crate, push_macro, push_mod,
    push_struct, push_use,
};
use crate::visibility::seen_by;
use hir_input::ast::PlainKind;
use hir_input::{Attr, CfgExpr, FileAstId, Name};
use item_tree::{ItemTree, ModItemId, ModItemKind, ModKind, RawVisibilityId};
use item_tree_attrs::AttrsOrCfg;
use language_names::has_unknown;
use std::alloc::AllocError;
use tree_walk::children;

/// The attributes of an owner, before a false cfg if there is one.
pub(crate) fn attrs_in(lent: Option<&AttrsOrCfg>) -> &[Attr]
    ensures { result.now ≡ (collected_in lent.entry).attrs }
{
    match lent {
        Some(AttrsOrCfg::Enabled { attrs }) => attrs.as_ref().as_slice(),
        Some(AttrsOrCfg::CfgDisabled(disabled)) => disabled.1.as_ref().as_slice(),
        None => &[],
    }
}

/// Its false cfg.
pub(crate) fn false_cfg_in(lent: Option<&AttrsOrCfg>) -> Option<&CfgExpr>
    ensures { option_map (λ cfg. cfg_view cfg.now) result ≡ (collected_in lent.entry).false_cfg }
{
    match lent {
        Some(AttrsOrCfg::CfgDisabled(disabled)) => Some(&disabled.0),
        _ => None,
    }
}

/// The module of a `mod` in a module.
fn module_of(ctx: &Ctx<'_, '_>, at: u32, id: FileAstId) -> Option<u32>
    ensures { result ≡ spec.module_of ctx.now.sources.modules.now at id }
{
    ctx.index.module_of(at, id)
}

/// Adds what is not seen of an item behind a false cfg.
pub(crate) fn push_disabled(
    ctx: &Ctx<'_, '_>,
    at: u32,
    cfg: &CfgExpr,
    rows: &mut Vec<Row<'_>>,
) -> Result<(), AllocError>
    ensures { OnOk result (AddsRows rows.old.items rows.new.items
        (spec.disabled_rows (sources_view ctx.now.sources).manifest.features at (cfg_view cfg.now))) }
{
    if has_unknown(&ctx.sources.manifest.features, cfg) {
        rows.push(Row::Veil(at, Visibility::Public))?;
        rows.push(Row::MacroVeil)?;
    }
    Ok(())
}

/// Adds what may stand beside an item, unseen.
pub(crate) fn push_marked(at: u32, marks: &Marks, rows: &mut Vec<Row<'_>>) -> Result<(), AllocError>
    ensures { OnOk result (AddsRows rows.old.items rows.new.items (spec.marked_rows at marks.now)) }
{
    if marks.is_veiling {
        rows.push(Row::Veil(at, Visibility::Public))?;
    }
    Ok(())
}

/// An item that is nothing but its kind, its name and its visibility.
#[derive(Clone, Copy)]
pub(crate) struct PlainItem<'t> {
    kind: PlainKind,
    name: &'t Name,
    visibility: RawVisibilityId,
}

fn named_item<'t>(
    kind: PlainKind,
    name: &'t Name,
    visibility: RawVisibilityId,
) -> Option<PlainItem<'t>>
    ensures { option_map plain_view result ≡ Some (kind, name.now, visibility) }
{
    Some(PlainItem {
        kind,
        name,
        visibility,
    })
}

/// Such an item, if it is one.
fn plain_item<'t>(item: ModItemKind<'t>) -> Option<PlainItem<'t>>
    ensures { option_map plain_view result ≡ lent_plain (lent_kind item.entry) }
{
    match item {
        ModItemKind::Function(_, x) => named_item(PlainKind::Fn, &x.name, x.visibility),
        ModItemKind::Union(_, x) => named_item(PlainKind::Union, &x.name, x.visibility),
        ModItemKind::Enum(_, x) => named_item(PlainKind::Enum, &x.name, x.visibility),
        ModItemKind::Static(_, x) => named_item(PlainKind::Static, &x.name, x.visibility),
        ModItemKind::Trait(_, x) => named_item(PlainKind::Trait, &x.name, x.visibility),
        ModItemKind::TypeAlias(_, x) => named_item(PlainKind::TypeAlias, &x.name, x.visibility),
        ModItemKind::Macro2(_, x) => named_item(PlainKind::MacroDef, &x.name, x.visibility),
        _ => None,
    }
}

/// Adds the name of a plain item.
fn push_plain<'t>(
    ctx: &Ctx<'_, '_>,
    tree: &ItemTree,
    owner: &Owner,
    item: PlainItem<'t>,
    rows: &mut Vec<Row<'t>>,
) -> Result<(), AllocError>
    ensures { OnOk result (AddsRows rows.old.items rows.new.items
        (plain_rows ctx.now tree.now owner.now (plain_view item.entry))) }
{
    let visibility = seen_by(ctx, tree, owner.place.at, item.visibility);
    rows.push(owner.plain_declared(item.kind, item.name, visibility))?;
    Ok(())
}

/// Adds what another item adds without those in it.
fn push_other<'t>(
    ctx: &Ctx<'_, '_>,
    tree: &'t ItemTree,
    owner: &Owner,
    item: ModItemKind<'t>,
    rows: &mut Vec<Row<'t>>,
) -> Result<(), AllocError>
    ensures { OnOk result (AddsRows rows.old.items rows.new.items
        (lent_other ctx.now tree.now owner.now (lent_kind item.entry))) }
{
    let at = owner.place.at;
    match item {
        ModItemKind::Const(_, x) => {
            let visibility = seen_by(ctx, tree, at, x.visibility);
            push_const(owner, x.name.as_ref(), visibility, rows)
        }
        ModItemKind::Struct(_, x) => push_struct(ctx, tree, owner, x, rows),
        ModItemKind::Mod(_, x) => {
            let visibility = seen_by(ctx, tree, at, x.visibility);
            let found = module_of(ctx, at, owner.id);
            push_mod(owner, &x.name, visibility, found, rows)
        }
        ModItemKind::Use(_, x) => {
            let visibility = seen_by(ctx, tree, at, x.visibility());
            push_use(ctx, owner, x, visibility, rows)
        }
        ModItemKind::ExternCrate(_, x) => {
            let visibility = seen_by(ctx, tree, at, x.visibility);
            push_crate(owner, crate_name(x), visibility, rows)
        }
        ModItemKind::MacroCall(_, _) => push_call(owner, rows),
        ModItemKind::MacroRules(_, x) => push_macro(owner, &x.name, rows),
        _ => Ok(()),
    }
}

/// Adds what an item adds without those in it.
fn push_own<'t>(
    ctx: &Ctx<'_, '_>,
    tree: &'t ItemTree,
    owner: &Owner,
    item: ModItemKind<'t>,
    rows: &mut Vec<Row<'t>>,
) -> Result<(), AllocError>
    ensures { OnOk result (AddsRows rows.old.items rows.new.items
        (lent_own ctx.now tree.now owner.now (lent_kind item.entry))) }
{
    match plain_item(item) {
        Some(plain) => push_plain(ctx, tree, owner, plain, rows),
        None => push_other(ctx, tree, owner, item, rows),
    }
}

/// Where the items in an item stand, if anywhere.
fn place_inside(ctx: &Ctx<'_, '_>, owner: &Owner, item: ModItemKind<'_>) -> Option<Place>
    ensures { result ≡ lent_inside ctx.now owner.now (lent_kind item.entry) }
{
    match item {
        ModItemKind::Mod(_, module) => match &module.kind {
            ModKind::Inline { .. } => {
                let at = module_of(ctx, owner.place.at, owner.id)?;
                Some(owner.inner_place(at))
            }
            ModKind::Outline => None,
        },
        ModItemKind::ExternBlock(_, _) => Some(owner.inner_place(owner.place.at)),
        _ => None,
    }
}

/// Adds what items add, with those in them.
#[cycle(walk)]
pub(crate) fn push_items<'t>(
    ctx: &Ctx<'_, '_>,
    tree: &'t ItemTree,
    ids: &[ModItemId],
    place: Place,
    rows: &mut Vec<Row<'t>>,
) -> Result<(), AllocError>
    requires { AreContained tree.now ids.now }
    ensures { OnOk result (AddsRows rows.old.items rows.new.items (flat_map (id_rows ctx.now tree.now place) ids.now)) }
{
    for id in ids {
        push_item(ctx, tree, *id, place, rows)?;
    }
    Ok(())
}

/// Adds what an item adds, with those in it.
#[cycle(walk)]
fn push_item<'t>(
    ctx: &Ctx<'_, '_>,
    tree: &'t ItemTree,
    id: ModItemId,
    place: Place,
    rows: &mut Vec<Row<'t>>,
) -> Result<(), AllocError>
    requires { IsContained tree.now id }
    ensures { OnOk result (AddsRows rows.old.items rows.new.items (id_rows ctx.now tree.now place id)) }
{
    let lent = tree.attrs(id);
    if let Some(cfg) = false_cfg_in(lent) {
        return push_disabled(ctx, place.at, cfg, rows);
    }
    let marks = marks_of(attrs_in(lent));
    push_marked(place.at, &marks, rows)?;
    let owner = Owner {
        place,
        id: id.ast_id(tree),
        marks,
    };
    let item = tree.index(id);
    push_own(ctx, tree, &owner, item, rows)?;
    let Some(inside) = place_inside(ctx, &owner, item) else {
        return Ok(());
    };
    push_items(ctx, tree, children(tree, id), inside, rows)
}
