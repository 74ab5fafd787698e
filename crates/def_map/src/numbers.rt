//! Names and items as numbers.
ghost use Rattle.std.specs.Prelude.{ℕ, List, Err, ◌≡◌, ◌≢◌, ◌<◌, ◌≤◌, ◌^◌, length, IfOk, IfErr, OnOk};
ghost use Rattle.std.specs.Prelude.{filter_map, flat_map, map, slice_get};
ghost use Rattle.std.specs.{List.list_any, Option.option_to_list, Str.bytes_eq};
ghost use Rattle.def_map.specs.CrateView.{rows_view, declared_view, macro_view, meaning_view};
ghost use Rattle.def_map.specs.Numbering as spec;
ghost use Rattle.def_map.specs.Numbering.{number_in, has_number, item_number, is_item_numbered, item_eq, thing_item};
ghost use Rattle.def_map.specs.Numbering.{path_names};
ghost use Rattle.def_map.specs.Numbering.{is_name_asked, Interns};
ghost use Rattle.def_map.specs.Numbers.{IsNumbering};
ghost use Rattle.def_map.specs.declared.numbers.NumbersError.TheVariants.{TooManyItems, TooManyNames};

use crate::rows::{CrateRows, DeclaredName, ItemKey, MacroName, Meaning, NamedImport};
use hir_input::Name;
use indexmap::IndexSet;
use std::alloc::{AllocError, AllocFailed, Global};
use thiserror::Error;

/// The most names of paths, and the most items that such names stand for.
const MOST_NUMBERS: usize = 1 << 32;

/// Why a crate has no numbers.
#[derive(Clone, Copy, Debug, PartialEq, Eq, Error)]
pub enum NumbersError {
    /// The allocator refused memory.
    #[error("out of memory")]
    OutOfMemory,
    /// More than `MOST_NUMBERS` names.
    #[error("too many names")]
    TooManyNames,
    /// More than `MOST_NUMBERS` items.
    #[error("too many items")]
    TooManyItems,
}

impl From<AllocError> for NumbersError {
    ghost use Rattle.std.specs.Prelude.{◌≡◌};
    ghost use Rattle.def_map.specs.declared.numbers.NumbersError.TheVariants.{OutOfMemory};

    ghost from_gives = { λ _ e. e ≡ OutOfMemory };

    fn from(_refused: AllocError) -> NumbersError {
        NumbersError::OutOfMemory
    }
}

impl<T: Drop> From<AllocFailed<T>> for NumbersError {
    ghost use Rattle.std.specs.Prelude.{◌≡◌};
    ghost use Rattle.def_map.specs.declared.numbers.NumbersError.TheVariants.{OutOfMemory};

    ghost from_gives = { λ _ e. e ≡ OutOfMemory };

    fn from(_refused: AllocFailed<T>) -> NumbersError {
        NumbersError::OutOfMemory
    }
}

/// The names that paths have, and the items that such names stand for.
#[derive(Drop)]
pub(crate) struct Numbers<'a> {
    symbols: IndexSet<&'a str>,
    items: IndexSet<ItemKey>,
    ghost few_symbols: { length symbols.keys ≤ 2 ^ 32 },
    ghost few_items: { length items.keys ≤ 2 ^ 32 },
}

impl Numbers<'_> {
    /// The number of a name, if a path has it.
    pub(crate) fn symbol(&self, name: &str) -> Option<u32>
        ensures { result ≡ number_in self.now.symbols.keys name.now }
    {
        let place = self.symbols.get_index_of(name)?;
        Some(place as u32)
    }

    /// The number of an item.
    pub(crate) fn item(&self, key: &ItemKey) -> u32
        ensures { result ≡ item_number self.now.items.keys key.now }
    {
        match self.items.get_index_of(key) {
            Some(place) => place as u32,
            None => 0,
        }
    }

    /// The item of a number.
    pub(crate) fn item_key(&self, number: u32) -> Option<ItemKey>
        ensures { result ≡ slice_get self.now.items.keys number }
    {
        self.items.get_index(number as usize).copied()
    }
}

// Adds names, but those that are there.
fn push_names<'a>(names: &'a [Name], symbols: &mut IndexSet<&'a str>) -> Result<(), AllocError>
    ensures { OnOk result
        (Interns bytes_eq (λ symbol. symbol.now) symbols.old.keys symbols.new.keys names.now) }
{
    for name in names {
        symbols.insert(name.text())?;
    }
    Ok(())
}

// Adds the names of paths.
fn push_paths<'a>(
    imports: &[NamedImport<'a>],
    symbols: &mut IndexSet<&'a str>,
) -> Result<(), AllocError>
    ensures { OnOk result
        (Interns bytes_eq (λ symbol. symbol.now) symbols.old.keys symbols.new.keys
        (flat_map (λ import. import.names.now) imports.now)) }
{
    for import in imports {
        push_names(import.names, symbols)?;
    }
    Ok(())
}

// The names that paths have.
fn path_symbols<'a>(alloc: Global, rows: &CrateRows<'a>) -> Result<IndexSet<&'a str>, NumbersError>
    ensures known { IfOk result
        (λ symbols. (name : List ℕ) → has_number symbols.keys name ≡ is_name_asked (rows_view rows.now) name) }
    ensures few { IfOk result (λ symbols. length symbols.keys ≤ 2 ^ 32) }
    ensures refused { IfErr result (λ e. e ≢ TooManyItems) }
    ensures many { result ≡ Err TooManyNames → 2 ^ 32 < length (path_names (rows_view rows.now)) }
{
    let mut symbols = IndexSet::new(alloc);
    push_paths(&rows.imports, &mut symbols)?;
    if symbols.len() > MOST_NUMBERS {
        return Err(NumbersError::TooManyNames);
    }
    Ok(symbols)
}

fn push_item(key: Option<ItemKey>, items: &mut IndexSet<ItemKey>) -> Result<(), AllocError>
    ensures { OnOk result
        (Interns item_eq (λ key. key) items.old.keys items.new.keys (option_to_list key)) }
{
    let Some(key) = key else {
        return Ok(());
    };
    items.insert(key)?;
    Ok(())
}

fn item_of(meaning: Meaning) -> Option<ItemKey>
    ensures { result ≡ thing_item (meaning_view meaning) }
{
    match meaning {
        Meaning::Item(key) | Meaning::Scope(key) => Some(key),
        Meaning::Module(_) | Meaning::Unseen => None,
    }
}

// The item that a name stands for, if a path has the name.
fn declared_item(symbols: &IndexSet<&str>, declared: &DeclaredName<'_>) -> Option<ItemKey>
    ensures { result ≡ spec.declared_item (has_number symbols.now.keys) (declared_view declared.now) }
{
    if symbols.contains(declared.name.text()) {
        return item_of(declared.meaning);
    }
    None
}

fn macro_item(symbols: &IndexSet<&str>, found: &MacroName<'_>) -> Option<ItemKey>
    ensures { result ≡ spec.macro_item (has_number symbols.now.keys) (macro_view found.now) }
{
    if symbols.contains(found.name.text()) {
        return Some(found.key);
    }
    None
}

fn push_declared(
    declarations: &[DeclaredName<'_>],
    symbols: &IndexSet<&str>,
    items: &mut IndexSet<ItemKey>,
) -> Result<(), AllocError>
    ensures { let asked = spec.declared_item (has_number symbols.now.keys) in
        OnOk result (Interns item_eq (λ key. key) items.old.keys items.new.keys
        (filter_map asked (map declared_view declarations.now))) }
{
    for declared in declarations {
        push_item(declared_item(symbols, declared), items)?;
    }
    Ok(())
}

fn push_macros(
    macros: &[MacroName<'_>],
    symbols: &IndexSet<&str>,
    items: &mut IndexSet<ItemKey>,
) -> Result<(), AllocError>
    ensures { let asked = spec.macro_item (has_number symbols.now.keys) in
        OnOk result (Interns item_eq (λ key. key) items.old.keys items.new.keys
        (filter_map asked (map macro_view macros.now))) }
{
    for found in macros {
        push_item(macro_item(symbols, found), items)?;
    }
    Ok(())
}

// The items that such names stand for.
fn asked_items(
    alloc: Global,
    rows: &CrateRows<'_>,
    symbols: &IndexSet<&str>,
) -> Result<IndexSet<ItemKey>, NumbersError>
    ensures known { let found = spec.named_items (has_number symbols.now.keys) (rows_view rows.now) in
        IfOk result (λ items. (key : ItemKey) → is_item_numbered items.keys key ≡ list_any (item_eq key) found) }
    ensures few { IfOk result (λ items. length items.keys ≤ 2 ^ 32) }
    ensures refused { IfErr result (λ e. e ≢ TooManyNames) }
    ensures many { let found = spec.named_items (has_number symbols.now.keys) (rows_view rows.now) in
        result ≡ Err TooManyItems → 2 ^ 32 < length found }
{
    let mut items = IndexSet::new(alloc);
    push_declared(&rows.declarations, symbols, &mut items)?;
    push_macros(&rows.macro_rules, symbols, &mut items)?;
    if items.len() > MOST_NUMBERS {
        return Err(NumbersError::TooManyItems);
    }
    Ok(items)
}

/// The numbers of the names and the items of a crate.
pub(crate) fn number_crate<'a>(
    alloc: Global,
    rows: &CrateRows<'a>,
) -> Result<Numbers<'a>, NumbersError>
    ensures numbering { IfOk result (λ n. IsNumbering
        (number_in n.symbols.keys) (item_number n.items.keys) (rows_view rows.now)) }
    ensures names { IfOk result
        (λ n. (name : List ℕ) → has_number n.symbols.keys name ≡ is_name_asked (rows_view rows.now) name) }
    ensures items { let found = spec.asked_items (rows_view rows.now) in
        IfOk result (λ n. (key : ItemKey) → is_item_numbered n.items.keys key ≡ list_any (item_eq key) found) }
    ensures too_many_names { result ≡ Err TooManyNames → 2 ^ 32 < length (path_names (rows_view rows.now)) }
    ensures too_many_items { result ≡ Err TooManyItems → 2 ^ 32 < length (spec.asked_items (rows_view rows.now)) }
{
    let symbols = path_symbols(alloc, rows)?;
    let items = asked_items(alloc, rows, &symbols)?;
    Ok(Numbers { symbols, items })
}
