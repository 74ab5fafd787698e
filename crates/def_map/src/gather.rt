//! The rows of a crate, each with those of its kind.
ghost use Rattle.std.specs.Prelude.{◌≡◌, ◌++◌, ◌∷◌, [], IfOk, OnOk, map, flat_map, option_copied, option_map};
ghost use Rattle.std.specs.List.{list_any};
ghost use Rattle.def_map.specs.CrateView.{bound_view, rows_view, declared_view, import_view, macro_view, other_view};
ghost use Rattle.def_map.specs.CrateView.{veil_view};
ghost use Rattle.tree_walk.specs.Listed.{listed_import};
ghost use Rattle.def_map.specs.Inner.Walking.{unseen_other, veil_of};
ghost use Rattle.def_map.specs.Tables as spec;
ghost use Rattle.def_map.specs.Views.{crate_manifest_view, crate_row_view};

use crate::kinds::{Namespace, PathStart, Visibility};
use crate::language::{BUILTIN_CRATES, PRELUDE_TYPES};
use crate::push::Row;
use crate::rows::{Bound, CrateRows, DeclaredName, MacroName, NamedImport, VeilRow};
use crate::sources::Manifest;
use hir_input::{Name, PathKind};
use item_tree::{ImportAlias, ImportKind};
use language_names::TOOLS;
use std::alloc::{AllocError, Global};
use tree_walk::Listed;

/// Adds the declaration of a row, if it is one.
fn push_declaration<'a>(row: &Row<'a>, list: &mut Vec<DeclaredName<'a>>) -> Result<(), AllocError>
    ensures { OnOk result (map declared_view list.new.items
        ≡ map declared_view list.old.items ++ spec.row_declarations (crate_row_view row.now)) }
{
    if let Row::Declares(declared) = row {
        list.push(*declared)?;
    }
    Ok(())
}

fn declarations_of<'a>(alloc: Global, rows: &[Row<'a>]) -> Result<Vec<DeclaredName<'a>>, AllocError>
    ensures { IfOk result (λ list. map declared_view list.items
        ≡ flat_map spec.row_declarations (map crate_row_view rows.now)) }
{
    let mut list = Vec::new(alloc);
    for row in rows {
        push_declaration(row, &mut list)?;
    }
    Ok(list)
}

fn start_of(kind: PathKind) -> PathStart
    ensures { result ≡ spec.kind_start kind }
{
    match kind {
        PathKind::Plain => PathStart::Plain,
        PathKind::Super(count) => PathStart::Super(count),
        PathKind::Crate => PathStart::Crate,
        PathKind::DollarCrate(_) => PathStart::Crate,
        PathKind::Abs => PathStart::Abs,
    }
}

/// What an import of names binds, by what it is renamed to and the last name of its path.
fn bound_name<'a>(alias: &'a Option<ImportAlias>, name: Option<&'a Name>) -> Bound<'a>
    ensures { bound_view result ≡ spec.name_binding alias.now (option_copied name.entry) }
{
    match alias {
        Some(ImportAlias::Underscore) => Bound::Underscore,
        Some(ImportAlias::Alias(alias)) => Bound::Name(alias),
        None => match name {
            Some(name) => Bound::Name(name),
            None => Bound::Nameless,
        },
    }
}

fn bound_of<'a>(
    kind: ImportKind,
    alias: &'a Option<ImportAlias>,
    name: Option<&'a Name>,
) -> Bound<'a>
    ensures { bound_view result ≡ spec.binding_by kind alias.now (option_copied name.entry) }
{
    match kind {
        ImportKind::Glob => Bound::Glob,
        ImportKind::Plain | ImportKind::TypeOnly => bound_name(alias, name),
    }
}

fn is_of_types(kind: ImportKind) -> bool
    ensures { result ≡ spec.is_of_types kind }
{
    matches!(kind, ImportKind::TypeOnly)
}

/// An import of a module, for those of this visibility.
fn import_in<'a>(parent: u32, visibility: Visibility, listed: &'a Listed) -> NamedImport<'a>
    ensures { import_view result ≡ spec.import_in parent visibility (listed_import listed.now) }
{
    let names = listed.path.segments();
    NamedImport {
        parent,
        start: start_of(listed.path.kind()),
        names,
        bound: bound_of(listed.kind, &listed.alias, names.last()),
        of_types: is_of_types(listed.kind),
        visibility,
    }
}

/// Adds the import of a row, if it is one.
fn push_import<'a>(row: &'a Row<'a>, list: &mut Vec<NamedImport<'a>>) -> Result<(), AllocError>
    ensures { OnOk result (map import_view list.new.items
        ≡ map import_view list.old.items ++ spec.row_imports (crate_row_view row.now)) }
{
    if let Row::Imports(used) = row {
        list.push(import_in(used.parent, used.visibility, &used.listed))?;
    }
    Ok(())
}

fn imports_of<'a>(alloc: Global, rows: &'a [Row<'a>]) -> Result<Vec<NamedImport<'a>>, AllocError>
    ensures { IfOk result (λ list. map import_view list.items
        ≡ flat_map spec.row_imports (map crate_row_view rows.now)) }
{
    let mut list = Vec::new(alloc);
    for row in rows {
        push_import(row, &mut list)?;
    }
    Ok(list)
}

fn push_veil(
    parent: u32,
    namespace: Namespace,
    visibility: Visibility,
    list: &mut Vec<VeilRow>,
) -> Result<(), AllocError>
    ensures { OnOk result (map veil_view list.new.items
        ≡ map veil_view list.old.items ++ veil_of parent namespace visibility ∷ []) }
{
    list.push(VeilRow {
        parent,
        namespace,
        visibility,
    })?;
    Ok(())
}

/// Adds the veils of a row.
fn push_veils(row: &Row<'_>, list: &mut Vec<VeilRow>) -> Result<(), AllocError>
    ensures { OnOk result (map veil_view list.new.items
        ≡ map veil_view list.old.items ++ spec.row_veils (crate_row_view row.now)) }
{
    match row {
        Row::Veil(parent, visibility) => {
            push_veil(*parent, Namespace::Types, *visibility, list)?;
            push_veil(*parent, Namespace::Values, *visibility, list)?;
            push_veil(*parent, Namespace::Macros, *visibility, list)
        }
        Row::MacroVeil => push_veil(0, Namespace::Macros, Visibility::Public, list),
        _ => Ok(()),
    }
}

fn veils_of(alloc: Global, rows: &[Row<'_>]) -> Result<Vec<VeilRow>, AllocError>
    ensures { IfOk result (λ list. map veil_view list.items
        ≡ flat_map spec.row_veils (map crate_row_view rows.now)) }
{
    let mut list = Vec::new(alloc);
    for row in rows {
        push_veils(row, &mut list)?;
    }
    Ok(list)
}

/// Adds the `macro_rules` of a row, if it is one.
fn push_macro<'a>(row: &Row<'a>, list: &mut Vec<MacroName<'a>>) -> Result<(), AllocError>
    ensures { OnOk result (map macro_view list.new.items
        ≡ map macro_view list.old.items ++ spec.row_macros (crate_row_view row.now)) }
{
    if let Row::DefinesMacro(name, key) = row {
        list.push(MacroName { name, key: *key })?;
    }
    Ok(())
}

fn macros_of<'a>(alloc: Global, rows: &[Row<'a>]) -> Result<Vec<MacroName<'a>>, AllocError>
    ensures { IfOk result (λ list. map macro_view list.items
        ≡ flat_map spec.row_macros (map crate_row_view rows.now)) }
{
    let mut list = Vec::new(alloc);
    for row in rows {
        push_macro(row, &mut list)?;
    }
    Ok(list)
}

/// Adds the texts of names.
fn push_names<'a>(names: &'a [Name], list: &mut Vec<&'a str>) -> Result<(), AllocError>
    ensures { OnOk result (map other_view list.new.items
        ≡ map other_view list.old.items ++ map unseen_other names.now) }
{
    for name in names {
        list.push(name.text())?;
    }
    Ok(())
}

/// Adds words.
fn push_words<'a>(words: &[&'a str], list: &mut Vec<&'a str>) -> Result<(), AllocError>
    ensures { OnOk result (map other_view list.new.items
        ≡ map other_view list.old.items ++ map other_view words.now) }
{
    for word in words {
        list.push(word)?;
    }
    Ok(())
}

/// Adds the name of another crate of a row, if it is one.
fn push_crate<'a>(row: &Row<'a>, list: &mut Vec<&'a str>) -> Result<(), AllocError>
    ensures { OnOk result (map other_view list.new.items
        ≡ map other_view list.old.items ++ map unseen_other (spec.row_crates (crate_row_view row.now))) }
{
    if let Row::NamesCrate(name) = row {
        list.push(name.text())?;
    }
    Ok(())
}

fn push_crates<'a>(rows: &[Row<'a>], list: &mut Vec<&'a str>) -> Result<(), AllocError>
    ensures { OnOk result (map other_view list.new.items
        ≡ map other_view list.old.items ++ map unseen_other (flat_map spec.row_crates (map crate_row_view rows.now))) }
{
    for row in rows {
        push_crate(row, list)?;
    }
    Ok(())
}

/// The names behind which other crates may stand, or the language.
fn others_of<'a>(
    alloc: Global,
    crates: &'a [Name],
    rows: &[Row<'a>],
) -> Result<Vec<&'a str>, AllocError>
    ensures { IfOk result (λ list. map other_view list.items
        ≡ map unseen_other (spec.other_names (map crate_row_view rows.now) crates.now)) }
{
    let mut list = Vec::new(alloc);
    push_names(crates, &mut list)?;
    push_words(&BUILTIN_CRATES, &mut list)?;
    push_words(&PRELUDE_TYPES, &mut list)?;
    push_words(&TOOLS, &mut list)?;
    push_crates(rows, &mut list)?;
    Ok(list)
}

fn is_root_veil(row: &Row<'_>) -> bool
    ensures { result ≡ spec.is_root_veil (crate_row_view row.now) }
{
    match row {
        Row::Veil(at, _) => *at == 0,
        _ => false,
    }
}

/// Whether the root may have names that are not seen.
fn has_root_veil(rows: &[Row<'_>]) -> bool
    ensures { result ≡ list_any (λ row. spec.is_root_veil (crate_row_view row)) rows.now }
{
    for row in rows {
        if is_root_veil(row) {
            return true;
        }
    }
    false
}

/// These, unless any name may be another crate's.
#[tactic(auto, using(crate::proofs::RootVeils::root_veils))]
fn others_by<'a>(
    alloc: Global,
    manifest: &'a Manifest,
    rows: &[Row<'a>],
) -> Result<Option<Vec<&'a str>>, AllocError>
    ensures { IfOk result (λ others. option_map (λ list. map other_view list.items) others
        ≡ spec.others_from (map crate_row_view rows.now) (crate_manifest_view manifest.now).crates) }
{
    let Some(crates) = &manifest.crates else {
        return Ok(None);
    };
    if has_root_veil(rows) {
        return Ok(None);
    }
    let list = others_of(alloc, crates, rows)?;
    Ok(Some(list))
}

/// The crate that rows make.
pub(crate) fn crate_rows<'a>(
    alloc: Global,
    parents: &[Option<u32>],
    manifest: &'a Manifest,
    rows: &'a [Row<'a>],
) -> Result<CrateRows<'a>, AllocError>
    ensures { IfOk result (λ c. rows_view c
        ≡ spec.crate_from parents.now (crate_manifest_view manifest.now) (map crate_row_view rows.now)) }
{
    let declarations = declarations_of(alloc, rows)?;
    let imports = imports_of(alloc, rows)?;
    let veils = veils_of(alloc, rows)?;
    let macro_rules = macros_of(alloc, rows)?;
    let others = others_by(alloc, manifest, rows)?;
    Ok(CrateRows {
        parents: Vec::from_slice(alloc, parents)?,
        declarations,
        imports,
        veils,
        macro_rules,
        others,
        is_2015: manifest.is_2015,
    })
}
