//! What the places of a crate add to its table, names lent from its trees.
ghost use Rattle.std.specs.Prelude.{◌≡◌, map, OnOk, option_copied, option_map};
ghost use Rattle.item_tree.specs.{Node.struct_item, Shown.ctor_ids};
ghost use Rattle.tree_walk.specs.{Declarations.crate_name, Listed.listed_import};
ghost use Rattle.def_map.specs.Inner.Walking.{seen_at, AddsRows};
ghost use Rattle.def_map.specs.Tables as spec;
ghost use Rattle.def_map.specs.CrateView.{meaning_view};
ghost use Rattle.def_map.specs.Views.{crate_row_view, sources_view};

use crate::attributes::Marks;
use crate::ctx::Ctx;
use crate::kinds::{Namespace, Visibility};
use crate::leaves::leaf_count;
use crate::rows::{DeclaredName, ItemKey, Meaning};
use crate::sight::smaller_visibility;
use crate::verdict::is_at_least;
use crate::visibility::{ctor_visibility, seen_by};
use hir_input::ast::PlainKind;
use hir_input::{FileAstId, Name};
use item_tree::{ExternCrate, ImportAlias, ItemTree, Struct, Use};
use std::alloc::AllocError;
use tree_walk::{Listed, list_imports};

/// An import of a use in a module, for those who see the use.
#[derive(Drop)]
pub(crate) struct UsedImport {
    pub(crate) parent: u32,
    pub(crate) id: FileAstId,
    pub(crate) listed: Listed,
    pub(crate) visibility: Visibility,
}

/// What a place of a crate adds to its table.
#[derive(Drop)]
pub(crate) enum Row<'t> {
    Declares(DeclaredName<'t>),
    Imports(UsedImport),
    /// The module may have names in each namespace that are not seen.
    Veil(u32, Visibility),
    /// The root may have macros that are not seen.
    MacroVeil,
    DefinesMacro(&'t Name, ItemKey),
    /// The root may name another crate so.
    NamesCrate(&'t Name),
}

/// Where items stand: in a module, and below nothing that an attribute may rewrite.
#[derive(Clone, Copy)]
pub(crate) struct Place {
    pub(crate) at: u32,
    pub(crate) is_certain: bool,
}

/// An item where it stands, by its id and its attributes.
#[derive(Clone, Copy)]
pub(crate) struct Owner {
    pub(crate) place: Place,
    pub(crate) id: FileAstId,
    pub(crate) marks: Marks,
}

impl Owner {
    pub(crate) fn key(&self) -> ItemKey
        ensures { result ≡ spec.owner_key self.now }
    {
        ItemKey {
            at: self.place.at,
            id: self.id,
        }
    }

    pub(crate) fn is_sure(&self) -> bool
        ensures { result ≡ spec.is_sure self.now }
    {
        self.place.is_certain && !self.marks.is_foreign && !self.marks.is_test
    }

    pub(crate) fn is_certain_inside(&self) -> bool
        ensures { result ≡ (spec.inner_place self.now 0).is_certain }
    {
        self.place.is_certain && !self.marks.is_foreign
    }

    /// Where the items in it stand, if that is this module.
    pub(crate) fn inner_place(&self, at: u32) -> Place
        ensures { result ≡ spec.inner_place self.now at }
    {
        Place {
            at,
            is_certain: self.is_certain_inside(),
        }
    }

    /// A name that it declares in its module.
    pub(crate) fn name_row<'t>(
        &self,
        namespace: Namespace,
        name: &'t Name,
        meaning: Meaning,
        visibility: Visibility,
    ) -> Row<'t>
        ensures { crate_row_view result ≡ spec.name_row self.now namespace name.now (meaning_view meaning) visibility }
    {
        Row::Declares(DeclaredName {
            parent: self.place.at,
            namespace,
            name,
            meaning,
            visibility,
            is_sure: self.is_sure(),
        })
    }

    pub(crate) fn plain_declared<'t>(
        &self,
        kind: PlainKind,
        name: &'t Name,
        v: Visibility,
    ) -> Row<'t>
        ensures { crate_row_view result ≡ spec.plain_declared self.now kind name.now v }
    {
        let key = self.key();
        match kind {
            PlainKind::Fn | PlainKind::Static => {
                self.name_row(Namespace::Values, name, Meaning::Item(key), v)
            }
            PlainKind::MacroDef => self.name_row(Namespace::Macros, name, Meaning::Item(key), v),
            PlainKind::Enum | PlainKind::Trait => {
                self.name_row(Namespace::Types, name, Meaning::Scope(key), v)
            }
            PlainKind::TypeAlias | PlainKind::Union => {
                self.name_row(Namespace::Types, name, Meaning::Item(key), v)
            }
        }
    }
}

/// Adds the name of a constant.
pub(crate) fn push_const<'t>(
    owner: &Owner,
    name: Option<&'t Name>,
    visibility: Visibility,
    rows: &mut Vec<Row<'t>>,
) -> Result<(), AllocError>
    ensures { OnOk result (AddsRows rows.old.items rows.new.items
        (spec.const_rows owner.now (option_copied name.entry) visibility)) }
{
    let Some(name) = name else {
        return Ok(());
    };
    let meaning = Meaning::Item(owner.key());
    rows.push(owner.name_row(Namespace::Values, name, meaning, visibility))?;
    Ok(())
}

fn ctor_limit(ctx: &Ctx<'_, '_>, marks: &Marks, visibility: Visibility) -> Visibility
    ensures { result ≡ spec.ctor_limit ctx.now.parents.now marks.now visibility }
{
    if marks.is_non_exhaustive {
        return smaller_visibility(ctx.parents, Visibility::Module(0), visibility);
    }
    visibility
}

/// Adds the name of a constructor, if there is one, of a struct that these see.
fn push_ctor<'t>(
    ctx: &Ctx<'_, '_>,
    owner: &Owner,
    name: &'t Name,
    own: Visibility,
    visibility: Option<Visibility>,
    rows: &mut Vec<Row<'t>>,
) -> Result<(), AllocError>
    ensures { let limit = spec.ctor_limit ctx.now.parents.now owner.now.marks in
        OnOk result (AddsRows rows.old.items rows.new.items
        (spec.ctor_rows ctx.now.parents.now owner.now name.now (limit own) (option_map limit visibility))) }
{
    let Some(visibility) = visibility else {
        return Ok(());
    };
    let own = ctor_limit(ctx, &owner.marks, own);
    let limit = ctor_limit(ctx, &owner.marks, visibility);
    if is_at_least(ctx.parents, limit, own) {
        let meaning = Meaning::Item(owner.key());
        rows.push(owner.name_row(Namespace::Values, name, meaning, limit))?;
        return Ok(());
    }
    rows.push(owner.name_row(Namespace::Values, name, Meaning::Unseen, own))?;
    Ok(())
}

/// Adds the names of a struct.
pub(crate) fn push_struct<'t>(
    ctx: &Ctx<'_, '_>,
    tree: &ItemTree,
    owner: &Owner,
    item: &'t Struct,
    rows: &mut Vec<Row<'t>>,
) -> Result<(), AllocError>
    ensures { let see = seen_at ctx.now tree.now owner.now.place.at in
        OnOk result (AddsRows rows.old.items rows.new.items
        (spec.leaf_rows ctx.now.parents.now (sources_view ctx.now.sources) owner.now see
        (struct_item item.now.name item.now.visibility item.now.shape (ctor_ids item.now.value_ns_ctor)))) }
{
    let at = owner.place.at;
    let meaning = Meaning::Item(owner.key());
    let own = seen_by(ctx, tree, at, item.visibility);
    rows.push(owner.name_row(Namespace::Types, &item.name, meaning, own))?;
    let visibility = ctor_visibility(ctx, tree, at, &item.value_ns_ctor);
    push_ctor(ctx, owner, &item.name, own, visibility, rows)
}

/// Adds the name of a `mod`, whose module is this one.
pub(crate) fn push_mod<'t>(
    owner: &Owner,
    name: &'t Name,
    visibility: Visibility,
    found: Option<u32>,
    rows: &mut Vec<Row<'t>>,
) -> Result<(), AllocError>
    ensures { OnOk result (AddsRows rows.old.items rows.new.items (spec.mod_rows owner.now name.now visibility found)) }
{
    let Some(at) = found else {
        rows.push(Row::Declares(DeclaredName {
            parent: owner.place.at,
            namespace: Namespace::Types,
            name,
            meaning: Meaning::Unseen,
            visibility,
            is_sure: false,
        }))?;
        rows.push(Row::MacroVeil)?;
        return Ok(());
    };
    rows.push(owner.name_row(Namespace::Types, name, Meaning::Module(at), visibility))?;
    if !owner.is_certain_inside() {
        rows.push(Row::Veil(at, Visibility::Public))?;
    }
    Ok(())
}

/// Adds imports.
fn push_imports<'t>(
    owner: &Owner,
    visibility: Visibility,
    list: Vec<Listed>,
    rows: &mut Vec<Row<'t>>,
) -> Result<(), AllocError>
    ensures { OnOk result (AddsRows rows.old.items rows.new.items
        (map (spec.import_row owner.now visibility) (map listed_import list.items))) }
{
    for listed in list {
        rows.push(Row::Imports(UsedImport {
            parent: owner.place.at,
            id: owner.id,
            listed,
            visibility,
        }))?;
    }
    Ok(())
}

/// Adds what a use imports.
pub(crate) fn push_use<'t>(
    ctx: &Ctx<'_, '_>,
    owner: &Owner,
    item: &Use,
    visibility: Visibility,
    rows: &mut Vec<Row<'t>>,
) -> Result<(), AllocError>
    ensures { OnOk result (AddsRows rows.old.items rows.new.items (spec.use_rows owner.now visibility item.now.tree)) }
{
    if !owner.is_certain_inside() {
        return Ok(());
    }
    let list = list_imports(ctx.alloc, item)?;
    let is_whole = list.len() == leaf_count(item.use_tree()) as usize;
    push_imports(owner, visibility, list, rows)?;
    if !is_whole {
        rows.push(Row::Veil(owner.place.at, visibility))?;
    }
    Ok(())
}

/// The name by which an extern crate is known, unless that is `_`.
pub(crate) fn crate_name(item: &ExternCrate) -> Option<&Name>
    ensures { option_copied result ≡ crate_name item.now.name item.now.alias }
{
    match &item.alias {
        None => Some(&item.name),
        Some(ImportAlias::Underscore) => None,
        Some(ImportAlias::Alias(name)) => Some(name),
    }
}

/// Adds the name of an extern crate.
pub(crate) fn push_crate<'t>(
    owner: &Owner,
    name: Option<&'t Name>,
    visibility: Visibility,
    rows: &mut Vec<Row<'t>>,
) -> Result<(), AllocError>
    ensures { OnOk result (AddsRows rows.old.items rows.new.items
        (spec.crate_rows owner.now (option_copied name.entry) visibility)) }
{
    let Some(name) = name else {
        return Ok(());
    };
    rows.push(owner.name_row(Namespace::Types, name, Meaning::Unseen, visibility))?;
    if owner.place.at == 0 {
        rows.push(Row::NamesCrate(name))?;
    }
    Ok(())
}

/// Adds what a macro call hides.
pub(crate) fn push_call(owner: &Owner, rows: &mut Vec<Row<'_>>) -> Result<(), AllocError>
    ensures { OnOk result (AddsRows rows.old.items rows.new.items (spec.call_rows owner.now)) }
{
    rows.push(Row::Veil(owner.place.at, Visibility::Public))?;
    Ok(())
}

/// Adds a `macro_rules`.
pub(crate) fn push_macro<'t>(
    owner: &Owner,
    name: &'t Name,
    rows: &mut Vec<Row<'t>>,
) -> Result<(), AllocError>
    ensures { OnOk result (AddsRows rows.old.items rows.new.items (spec.macro_rows owner.now name.now)) }
{
    let key = owner.key();
    rows.push(Row::DefinesMacro(name, key))?;
    if owner.marks.is_exported {
        rows.push(Row::Declares(DeclaredName {
            parent: 0,
            namespace: Namespace::Macros,
            name,
            meaning: Meaning::Item(key),
            visibility: Visibility::Public,
            is_sure: owner.is_sure(),
        }))?;
    }
    Ok(())
}
