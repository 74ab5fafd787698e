//! The table of a crate by numbers.
ghost use Rattle.std.specs.Prelude.{◌≡◌, ◌++◌, IfOk, OnOk, filter_map, map};
ghost use Rattle.std.specs.{List.list_any, Option.option_to_list};
ghost use Rattle.def_map.specs.Closing.{binding_of, table_import, loop_binding, loop_import, IsLowered};
ghost use Rattle.def_map.specs.CrateView.{bound_view, declared_view, import_view};
ghost use Rattle.def_map.specs.Lowering.{crate_by, declared_eq, import_by, item_by, number_by, sure_by};
ghost use Rattle.def_map.specs.Numbering.{Interns};
ghost use Rattle.def_map.specs.Numbers.{numbered_binding};

use crate::facts::{Declared, Import, ImportName, ImportTable};
use crate::numbers::Numbers;
use crate::rows::{Bound, CrateRows, DeclaredName, NamedImport};
use hir_input::Name;
use indexmap::IndexSet;
use std::alloc::{AllocError, Global};

fn push_number(number: Option<u32>, path: &mut Vec<u32>) -> Result<(), AllocError>
    ensures { OnOk result (path.new.items ≡ path.old.items ++ option_to_list number) }
{
    let Some(number) = number else {
        return Ok(());
    };
    path.push(number)?;
    Ok(())
}

// The numbers of names, of those that have one.
fn lower_names(alloc: Global, numbers: &Numbers<'_>, names: &[Name]) -> Result<Vec<u32>, AllocError>
    ensures { IfOk result (λ path. path.items ≡ filter_map (number_by numbers.now) names.now) }
{
    let mut path = Vec::with_capacity(alloc, names.len())?;
    for name in names {
        push_number(numbers.symbol(name.text()), &mut path)?;
    }
    Ok(path)
}

// A name that no path has is as `_`.
fn lower_bound(numbers: &Numbers<'_>, bound: Bound<'_>) -> ImportName
    ensures { let binding = numbered_binding (number_by numbers.now) (item_by numbers.now) (bound_view bound.entry) in
        binding_of result ≡ loop_binding binding }
{
    match bound {
        Bound::Glob => ImportName::Glob,
        Bound::Name(name) => match numbers.symbol(name.text()) {
            Some(number) => ImportName::Named(number),
            None => ImportName::Unnamed,
        },
        Bound::Underscore | Bound::Nameless => ImportName::Unnamed,
    }
}

fn lower_import(
    alloc: Global,
    numbers: &Numbers<'_>,
    import: &NamedImport<'_>,
) -> Result<Import, AllocError>
    ensures { IfOk result (λ lowered.
        table_import lowered ≡ loop_import (import_by numbers.now (import_view import.now))) }
{
    let path = lower_names(alloc, numbers, import.names)?;
    Ok(Import {
        home: import.parent,
        path,
        name: lower_bound(numbers, import.bound),
        types_alone: import.of_types,
        visibility: import.visibility,
    })
}

fn lower_imports(
    alloc: Global,
    numbers: &Numbers<'_>,
    imports: &[NamedImport<'_>],
) -> Result<Vec<Import>, AllocError>
    ensures { IfOk result (λ lowered. map table_import lowered.items
        ≡ map loop_import (map (import_by numbers.now) (map import_view imports.now))) }
{
    let mut lowered = Vec::with_capacity(alloc, imports.len())?;
    for import in imports {
        lowered.push(lower_import(alloc, numbers, import)?)?;
    }
    Ok(lowered)
}

// What is declared for sure, by a name that a path has.
fn sure_name(numbers: &Numbers<'_>, declared: &DeclaredName<'_>) -> Option<Declared>
    ensures { result ≡ sure_by numbers.now (declared_view declared.now) }
{
    let name = numbers.symbol(declared.name.text())?;
    if declared.is_sure {
        return Some(Declared {
            home: declared.parent,
            namespace: declared.namespace,
            name,
        });
    }
    None
}

fn push_declared(declared: Option<Declared>, all: &mut IndexSet<Declared>) -> Result<(), AllocError>
    ensures { OnOk result
        (Interns declared_eq (λ d. d) all.old.keys all.new.keys (option_to_list declared)) }
{
    let Some(declared) = declared else {
        return Ok(());
    };
    all.insert(declared)?;
    Ok(())
}

fn push_sure(
    numbers: &Numbers<'_>,
    declarations: &[DeclaredName<'_>],
    all: &mut IndexSet<Declared>,
) -> Result<(), AllocError>
    ensures { OnOk result
        (Interns declared_eq (λ d. d) all.old.keys all.new.keys
        (filter_map (sure_by numbers.now) (map declared_view declarations.now))) }
{
    for declared in declarations {
        push_declared(sure_name(numbers, declared), all)?;
    }
    Ok(())
}

/// The table of a crate by numbers.
pub(crate) fn lower_crate(
    alloc: Global,
    rows: &CrateRows<'_>,
    numbers: &Numbers<'_>,
) -> Result<ImportTable, AllocError>
    ensures { IfOk result (λ table. IsLowered (crate_by numbers.now rows.now) table) }
{
    let mut declared = IndexSet::new(alloc);
    push_sure(numbers, &rows.declarations, &mut declared)?;
    Ok(ImportTable {
        parents: Vec::from_slice(alloc, &rows.parents)?,
        imports: lower_imports(alloc, numbers, &rows.imports)?,
        declared,
    })
}
