//! What is told of each import.
ghost use Rattle.std.specs.Prelude.{◌≡◌, ◌≤◌, ◌^◌, IfOk, length, map, option_copied, unwrap_or};
ghost use Rattle.def_map.specs.CrateView.{bound_view, import_view};
ghost use Rattle.def_map.specs.Inner.Closing.{IsIndexed};
ghost use Rattle.def_map.specs.Inner.Told as spec;
ghost use Rattle.def_map.specs.declared.verdict.Verdict.TheVariants.{Unknown};

use crate::closure::Closure;
use crate::facts::ImportTable;
use crate::numbers::Numbers;
use crate::private::private_imports;
use crate::rows::{Bound, CrateRows, NamedImport};
use crate::targets::{Target, import_targets};
use crate::verdict::{Verdict, verdicts};
use indexmap::IndexSet;
use std::alloc::{AllocError, Global};

/// What is told of an import.
#[derive(Drop)]
pub(crate) struct Told {
    pub(crate) verdict: Verdict,
    pub(crate) is_private: bool,
    pub(crate) targets: Vec<Target>,
}

/// What was found of the imports of a crate.
#[derive(Clone, Copy)]
struct Found<'a> {
    imports: &'a [NamedImport<'a>],
    numbers: &'a Numbers<'a>,
    table: &'a ImportTable,
    closure: &'a Closure,
    verdicts: &'a [Verdict],
    hidden: &'a IndexSet<u32>,
}

// What is told of an import that is bound so, by its verdict.
fn verdict_told(bound: Bound<'_>, verdict: Option<&Verdict>) -> Verdict
    ensures { result ≡ spec.verdict_told (bound_view bound.entry) (unwrap_or (option_copied verdict.entry) Unknown) }
{
    match bound {
        Bound::Nameless => Verdict::Nameless,
        _ => match verdict {
            Some(verdict) => *verdict,
            None => Verdict::Unknown,
        },
    }
}

// What is told of the import of a number.
fn verdict_at(imports: &[NamedImport<'_>], verdicts: &[Verdict], at: usize) -> Verdict
    ensures { result ≡ spec.verdict_at (map import_view imports.now) verdicts.now at }
{
    let Some(import) = imports.get(at) else {
        return Verdict::Unknown;
    };
    verdict_told(import.bound, verdicts.get(at))
}

fn tell(alloc: Global, found: &Found<'_>, number: u32) -> Result<Told, AllocError>
    requires { IsIndexed found.now.table.now found.now.closure.now.facts.keys found.now.closure.now.index }
    ensures { IfOk result (spec.IsToldAt found.now number) }
{
    let targets = import_targets(alloc, found.table, found.numbers, found.closure, number)?;
    Ok(Told {
        verdict: verdict_at(found.imports, found.verdicts, number as usize),
        is_private: found.hidden.contains(&number),
        targets,
    })
}

fn tell_all(alloc: Global, found: &Found<'_>) -> Result<Vec<Told>, AllocError>
    requires few { length found.now.imports.now ≤ 2 ^ 32 }
    requires indexed { IsIndexed found.now.table.now found.now.closure.now.facts.keys found.now.closure.now.index }
    ensures { IfOk result (λ told. spec.AreToldUpto found.now (length found.now.imports.now) told.items) }
{
    let mut told = Vec::new(alloc);
    for number in 0..found.imports.len() {
        told.push(tell(alloc, found, number as u32)?)?;
    }
    Ok(told)
}

/// What is told of each import, by all facts that follow.
pub(crate) fn tell_imports(
    alloc: Global,
    rows: &CrateRows<'_>,
    numbers: &Numbers<'_>,
    table: &ImportTable,
    closure: &Closure,
) -> Result<Vec<Told>, AllocError>
    requires few { length rows.now.imports.items ≤ 2 ^ 32 }
    requires indexed { IsIndexed table.now closure.now.facts.keys closure.now.index }
    ensures { let us = map import_view rows.now.imports.items in
        IfOk result (λ told. spec.AreToldBy table.now numbers.now.items.keys closure.now.facts.keys us told.items) }
{
    let verdicts = verdicts(alloc, table, closure.facts.as_slice())?;
    let hidden = private_imports(alloc, table, closure)?;
    let found = Found {
        imports: &rows.imports,
        numbers,
        table,
        closure,
        verdicts: &verdicts,
        hidden: &hidden,
    };
    tell_all(alloc, &found)
}
