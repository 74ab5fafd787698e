//! The facts that hold of a crate before any follows: declarations, veils, where paths begin, first names elsewhere.
ghost use Rattle.std.specs.Prelude.{Err, ◌≡◌, ◌<◌, ◌≤◌, ◌^◌, ◌++◌, length, map, filter_map, option_map, IfErr, IfOk};
ghost use Rattle.std.specs.{Option.option_to_list, Prelude.OnOk};
ghost use Rattle.def_map.specs.Closing.{table_import, loop_thing, AreSeeds, IsLowered};
ghost use Rattle.def_map.specs.CrateView.{declared_view, meaning_view, veil_view};
ghost use Rattle.def_map.specs.Facts as rules;
ghost use Rattle.def_map.specs.Lowering.{crate_by, declaration_by, thing_by};
ghost use Rattle.def_map.specs.Seeding.{declaration_seed, is_plain, macro_count, macro_pairs, macro_seed, macros_in};
ghost use Rattle.def_map.specs.Seeding.{pair_count, started_import, veil_seed};
ghost use Rattle.def_map.specs.SeedsOf as spec;
ghost use Rattle.def_map.specs.SeedsOf.{lowered_crate, first_import};
ghost use Rattle.def_map.specs.declared.seeds.SeedsError.TheVariants.{TooManyImports, TooManyPairs};

use crate::facts::{Fact, Import, ImportName, ImportTable, Thing};
use crate::kinds::{Namespace, PathStart, Visibility};
use crate::numbers::Numbers;
use crate::outside::{Outside, outside_of};
use crate::rows::{CrateRows, DeclaredName, Meaning, VeilRow};
use crate::sight::module_above;
use std::alloc::{AllocError, AllocFailed, Global};
use thiserror::Error;

/// The most imports of a crate.
const MOST_IMPORTS: usize = 1 << 32;

/// The most pairs of an import whose path is one name and a `macro_rules` of that name.
const MOST_PAIRS: usize = 1 << 21;

/// Why a crate has no seeds.
#[derive(Clone, Copy, Debug, PartialEq, Eq, Error)]
pub enum SeedsError {
    /// The allocator refused memory.
    #[error("out of memory")]
    OutOfMemory,
    /// More than `MOST_IMPORTS`.
    #[error("too many imports")]
    TooManyImports,
    /// More than `MOST_PAIRS`.
    #[error("too many imports of the names of macros")]
    TooManyPairs,
}

impl From<AllocError> for SeedsError {
    ghost use Rattle.std.specs.Prelude.{◌≡◌};
    ghost use Rattle.def_map.specs.declared.seeds.SeedsError.TheVariants.{OutOfMemory};

    ghost from_gives = { λ _ e. e ≡ OutOfMemory };

    fn from(_refused: AllocError) -> SeedsError {
        SeedsError::OutOfMemory
    }
}

impl<T: Drop> From<AllocFailed<T>> for SeedsError {
    ghost use Rattle.std.specs.Prelude.{◌≡◌};
    ghost use Rattle.def_map.specs.declared.seeds.SeedsError.TheVariants.{OutOfMemory};

    ghost from_gives = { λ _ e. e ≡ OutOfMemory };

    fn from(_refused: AllocFailed<T>) -> SeedsError {
        SeedsError::OutOfMemory
    }
}

/// What is at hand everywhere.
#[derive(Clone, Copy)]
pub(crate) struct Lowered<'a> {
    pub(crate) rows: &'a CrateRows<'a>,
    pub(crate) numbers: &'a Numbers<'a>,
    pub(crate) table: &'a ImportTable,
    pub(crate) outside: &'a Outside,
}

/// The first name of the path of an import.
#[derive(Clone, Copy)]
struct FirstName<'a> {
    number: u32,
    import: &'a Import,
    start: PathStart,
    name: u32,
}

fn lower_thing(numbers: &Numbers<'_>, meaning: Meaning) -> Thing
    ensures { result ≡ loop_thing (thing_by numbers.now (meaning_view meaning)) }
{
    match meaning {
        Meaning::Module(at) => Thing::Module(at),
        Meaning::Item(key) => Thing::Item(numbers.item(&key)),
        Meaning::Scope(key) => Thing::Scope(numbers.item(&key)),
        Meaning::Unseen => Thing::Unseen,
    }
}

fn declaration_seed(numbers: &Numbers<'_>, declared: &DeclaredName<'_>) -> Option<Fact>
    ensures { result ≡ option_map declaration_seed (declaration_by numbers.now (declared_view declared.now)) }
{
    let name = numbers.symbol(declared.name.text())?;
    Some(Fact::Names(
        declared.parent,
        declared.namespace,
        name,
        lower_thing(numbers, declared.meaning),
        declared.visibility,
    ))
}

fn push_seed(seed: Option<Fact>, seeds: &mut Vec<Fact>) -> Result<(), AllocError>
    ensures { OnOk result (seeds.new.items ≡ seeds.old.items ++ option_to_list seed) }
{
    let Some(seed) = seed else {
        return Ok(());
    };
    seeds.push(seed)?;
    Ok(())
}

fn push_declarations(
    numbers: &Numbers<'_>,
    declarations: &[DeclaredName<'_>],
    seeds: &mut Vec<Fact>,
) -> Result<(), AllocError>
    ensures { OnOk result (seeds.new.items ≡ seeds.old.items
        ++ map declaration_seed (filter_map (declaration_by numbers.now) (map declared_view declarations.now))) }
{
    for declared in declarations {
        push_seed(declaration_seed(numbers, declared), seeds)?;
    }
    Ok(())
}

fn push_veils(veils: &[VeilRow], seeds: &mut Vec<Fact>) -> Result<(), AllocError>
    ensures { OnOk result (seeds.new.items ≡ seeds.old.items ++ map veil_seed (map veil_view veils.now)) }
{
    for veil in veils {
        seeds.push(Fact::EveryName(veil.parent, veil.namespace, veil.visibility))?;
    }
    Ok(())
}

fn start_of(lowered: &Lowered<'_>, start: PathStart, home: u32) -> Option<u32>
    ensures { result ≡ rules.start_by (lowered_crate lowered.now) start home }
{
    match start {
        PathStart::Crate => Some(0),
        PathStart::Super(count) => module_above(&lowered.rows.parents, count, home),
        PathStart::Plain => {
            if lowered.rows.is_2015 {
                return Some(0);
            }
            Some(home)
        }
        PathStart::Abs => {
            if lowered.rows.is_2015 {
                return Some(0);
            }
            None
        }
    }
}

fn start_seed(lowered: &Lowered<'_>, number: u32, start: PathStart, import: &Import) -> Option<Fact>
    ensures { result ≡ spec.lowered_start_seed lowered.now number (started_import start import.now) }
{
    let at = start_of(lowered, start, import.home)?;
    Some(Fact::Stands(number, 0, Thing::Module(at)))
}

fn is_wanted(import: &Import, namespace: Namespace) -> bool
    ensures { result ≡ rules.is_wanted (table_import import.now) namespace }
{
    match namespace {
        Namespace::Types => true,
        Namespace::Values | Namespace::Macros => !import.types_alone,
    }
}

// The first name of its path leads on.
fn is_inner(import: &Import) -> bool
    ensures { result ≡ rules.is_inner_name (table_import import.now) 0 }
{
    if matches!(import.name, ImportName::Glob) {
        return true;
    }
    1 < import.path.len()
}

fn is_hidden(lowered: &Lowered<'_>, first: &FirstName<'_>, namespace: Namespace) -> bool
    ensures { result ≡ spec.is_lowered_hidden lowered.now (first_import first.now) namespace first.now.name }
{
    match start_of(lowered, first.start, first.import.home) {
        Some(at) => lowered.table.hides(at, namespace, first.name),
        None => false,
    }
}

fn inner_seed(lowered: &Lowered<'_>, first: &FirstName<'_>) -> Option<Fact>
    ensures { result ≡ spec.lowered_inner_seed lowered.now first.now.number (first_import first.now) first.now.name }
{
    if lowered.outside.is_other(first.name) && !is_hidden(lowered, first, Namespace::Types) {
        return Some(Fact::Stands(first.number, 1, Thing::Unseen));
    }
    None
}

fn last_seed(lowered: &Lowered<'_>, first: &FirstName<'_>, namespace: Namespace) -> Option<Fact>
    ensures { let u = first_import first.now in
        result ≡ spec.lowered_last_seed lowered.now first.now.number u first.now.name namespace }
{
    if is_wanted(first.import, namespace) && !is_hidden(lowered, first, namespace) {
        return Some(Fact::Gives(first.number, namespace, Thing::Unseen, Visibility::Public));
    }
    None
}

fn push_last(
    lowered: &Lowered<'_>,
    first: &FirstName<'_>,
    seeds: &mut Vec<Fact>,
) -> Result<(), AllocError>
    ensures { OnOk result (seeds.new.items ≡ seeds.old.items
        ++ spec.lowered_last_seeds lowered.now first.now.number (first_import first.now) first.now.name) }
{
    push_seed(last_seed(lowered, first, Namespace::Types), seeds)?;
    push_seed(last_seed(lowered, first, Namespace::Values), seeds)?;
    push_seed(last_seed(lowered, first, Namespace::Macros), seeds)
}

fn is_plain(start: PathStart) -> bool
    ensures { result ≡ is_plain start }
{
    matches!(start, PathStart::Plain)
}

fn gives_macros(lowered: &Lowered<'_>, first: &FirstName<'_>) -> bool
    ensures { result ≡ spec.lowered_gives_macros lowered.now (first_import first.now) first.now.name }
{
    is_plain(first.start)
        && is_wanted(first.import, Namespace::Macros)
        && !is_hidden(lowered, first, Namespace::Macros)
}

fn push_items(number: u32, items: &[u32], seeds: &mut Vec<Fact>) -> Result<(), AllocError>
    ensures { OnOk result (seeds.new.items ≡ seeds.old.items ++ map (macro_seed number) items.now) }
{
    for item in items {
        seeds.push(Fact::Gives(
            number,
            Namespace::Macros,
            Thing::Item(*item),
            Visibility::Module(0),
        ))?;
    }
    Ok(())
}

fn push_macros(
    lowered: &Lowered<'_>,
    first: &FirstName<'_>,
    seeds: &mut Vec<Fact>,
) -> Result<(), AllocError>
    ensures { OnOk result (seeds.new.items ≡ seeds.old.items
        ++ spec.lowered_macro_seeds lowered.now first.now.number (first_import first.now) first.now.name) }
{
    if !gives_macros(lowered, first) {
        return Ok(());
    }
    push_items(first.number, lowered.outside.macros(first.name), seeds)
}

fn push_named(
    lowered: &Lowered<'_>,
    first: &FirstName<'_>,
    seeds: &mut Vec<Fact>,
) -> Result<(), AllocError>
    ensures { OnOk result (seeds.new.items ≡ seeds.old.items
        ++ spec.lowered_name_seeds lowered.now first.now.number (first_import first.now) first.now.name) }
{
    if is_inner(first.import) {
        return push_seed(inner_seed(lowered, first), seeds);
    }
    push_last(lowered, first, seeds)?;
    push_macros(lowered, first, seeds)
}

fn may_leave(start: PathStart) -> bool
    ensures { result ≡ rules.may_leave start }
{
    matches!(start, PathStart::Plain | PathStart::Abs)
}

fn push_first(
    lowered: &Lowered<'_>,
    number: u32,
    start: PathStart,
    import: &Import,
    seeds: &mut Vec<Fact>,
) -> Result<(), AllocError>
    ensures { OnOk result (seeds.new.items ≡ seeds.old.items
        ++ spec.lowered_first_seeds lowered.now number (started_import start import.now)) }
{
    if !may_leave(start) {
        return Ok(());
    }
    let Some(name) = import.path.get(0) else {
        return Ok(());
    };
    let first = FirstName {
        number,
        import,
        start,
        name: *name,
    };
    push_named(lowered, &first, seeds)
}

fn push_import(
    lowered: &Lowered<'_>,
    number: u32,
    start: PathStart,
    import: &Import,
    seeds: &mut Vec<Fact>,
) -> Result<(), AllocError>
    ensures { OnOk result (seeds.new.items ≡ seeds.old.items
        ++ spec.lowered_import_seeds lowered.now number (started_import start import.now)) }
{
    push_seed(start_seed(lowered, number, start, import), seeds)?;
    push_first(lowered, number, start, import, seeds)
}

fn push_imports(lowered: &Lowered<'_>, seeds: &mut Vec<Fact>) -> Result<(), AllocError>
    requires few { length lowered.now.rows.now.imports.items ≤ 2 ^ 32 }
    requires lowered { IsLowered (lowered_crate lowered.now) lowered.now.table.now }
    ensures { OnOk result (seeds.new.items ≡ seeds.old.items
        ++ spec.lowered_imports_seeds lowered.now 0 (lowered_crate lowered.now).imports) }
{
    let rows = lowered.rows.imports.as_slice();
    let imports = lowered.table.imports.as_slice();
    for number in 0..imports.len() {
        let start = rows[number].start;
        push_import(lowered, number as u32, start, &imports[number], seeds)?;
    }
    Ok(())
}

// How many `macro_rules` have the only name of a path.
fn macro_count(outside: &Outside, path: &[u32]) -> usize
    ensures count { result ≡ macro_count (macros_in outside.now) path.now }
    ensures fits { result < 2 ^ 63 }
{
    match path {
        [name] => outside.macros(*name).len(),
        _ => 0,
    }
}

fn check_pairs(outside: &Outside, imports: &[Import]) -> Result<(), SeedsError>
    ensures few { OnOk result (macro_pairs (macros_in outside.now) imports.now ≤ 2 ^ 21) }
    ensures many { IfErr result (λ e. (e ≡ TooManyPairs) × (2 ^ 21 < macro_pairs (macros_in outside.now) imports.now)) }
{
    let mut pairs: usize = 0;
    for import in imports {
        pairs += macro_count(outside, import.path.as_slice());
        if pairs > MOST_PAIRS {
            return Err(SeedsError::TooManyPairs);
        }
    }
    Ok(())
}

/// The facts that hold of a crate before any follows.
pub(crate) fn find_seeds(
    alloc: Global,
    rows: &CrateRows<'_>,
    numbers: &Numbers<'_>,
    table: &ImportTable,
) -> Result<Vec<Fact>, SeedsError>
    requires { IsLowered (crate_by numbers.now rows.now) table.now }
    ensures seeds { IfOk result (λ seeds. AreSeeds (crate_by numbers.now rows.now) seeds.items) }
    ensures few { OnOk result (length rows.now.imports.items ≤ 2 ^ 32) }
    ensures few_pairs { OnOk result (pair_count (crate_by numbers.now rows.now) ≤ 2 ^ 21) }
    ensures too_many_imports { result ≡ Err TooManyImports → 2 ^ 32 < length rows.now.imports.items }
    ensures too_many_pairs { result ≡ Err TooManyPairs → 2 ^ 21 < pair_count (crate_by numbers.now rows.now) }
{
    if rows.imports.len() > MOST_IMPORTS {
        return Err(SeedsError::TooManyImports);
    }
    let outside = outside_of(alloc, numbers, rows)?;
    check_pairs(&outside, &table.imports)?;
    let lowered = Lowered {
        rows,
        numbers,
        table,
        outside: &outside,
    };
    let mut seeds = Vec::new(alloc);
    push_declarations(numbers, &rows.declarations, &mut seeds)?;
    push_veils(&rows.veils, &mut seeds)?;
    push_imports(&lowered, &mut seeds)?;
    Ok(seeds)
}
