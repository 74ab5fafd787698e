//! Imports that ask for a name which is there, but for others.

ghost use Rattle.std.specs.Prelude.{◌≡◌, ◌<◌, ℕ, IfOk, length, nat_eq, slice_get};
ghost use Rattle.std.specs.List.{list_any};
ghost use Rattle.def_map.specs.Inner.Closing.{IsIndexed};
ghost use Rattle.def_map.specs.Private as spec;

use crate::closure::Closure;
use crate::fact_index::Key;
use crate::facts::{Fact, Import, ImportTable, Thing};
use crate::kinds::{Namespace, Visibility};
use crate::outside::put_number;
use crate::rules::{are_types, is_glob};
use crate::sight::sees;
use indexmap::IndexSet;
use std::alloc::{AllocError, Global};

/// The imports from which a name is hidden that they ask for.
pub(crate) fn private_imports(
    alloc: Global,
    table: &ImportTable,
    closure: &Closure,
) -> Result<IndexSet<u32>, AllocError>
    requires { IsIndexed table.now closure.now.facts.keys closure.now.index }
    ensures { let hidden = spec.private_imports table.now closure.now.facts.keys in
        IfOk result (λ found. (i : ℕ) → list_any (nat_eq i) found.keys ≡ list_any (nat_eq i) hidden) }
{
    let mut found = IndexSet::new(alloc);
    for fact in closure.facts.as_slice() {
        put_number(hidden_from(table, closure, *fact), &mut found)?;
    }
    Ok(found)
}

fn hidden_from(table: &ImportTable, closure: &Closure, fact: Fact) -> Option<u32>
    requires { IsIndexed table.now closure.now.facts.keys closure.now.index }
    ensures { result ≡ spec.hidden_from table.now closure.now.facts.keys fact }
{
    if has_hidden(table, closure, fact) {
        return import_of_path(fact);
    }
    None
}

#[tactic(auto, unfolding(crate::specs::Private::import_of_path))]
fn import_of_path(fact: Fact) -> Option<u32>
    ensures { result ≡ spec.import_of_path fact }
{
    match fact {
        Fact::Stands(number, _, _) => Some(number),
        _ => None,
    }
}

// Whether a path stands where a name that it asks for is for others.
fn has_hidden(table: &ImportTable, closure: &Closure, fact: Fact) -> bool
    requires { IsIndexed table.now closure.now.facts.keys closure.now.index }
    ensures { result ≡ list_any (spec.is_name_hidden table.now fact) closure.now.facts.keys }
{
    let Some(wait) = waits_at(table, fact) else {
        return false;
    };
    for place in closure.index.places(Some(Key::Name(wait.0, wait.1))) {
        if hidden_at(table, &closure.facts, fact, *place) {
            return true;
        }
    }
    false
}

fn hidden_at(table: &ImportTable, facts: &IndexSet<Fact>, fact: Fact, place: u32) -> bool
    ensures { result ≡ spec.hidden_by table.now fact (slice_get facts.now.keys place) }
{
    let Some(other) = facts.get_index(place as usize) else {
        return false;
    };
    is_hidden(table, fact, *other)
}

// The module and the name for which a path waits.
#[tactic(auto, unfolding(crate::specs::Private::waits_at))]
fn waits_at(table: &ImportTable, fact: Fact) -> Option<(u32, u32)>
    ensures { result ≡ spec.waits_at table.now fact }
{
    match fact {
        Fact::Stands(number, count, Thing::Module(at)) => {
            let name = table.name_at(number, count)?;
            Some((at, name))
        }
        _ => None,
    }
}

#[tactic(auto, unfolding(crate::specs::Private::is_name_hidden))]
fn is_hidden(table: &ImportTable, fact: Fact, other: Fact) -> bool
    ensures { result ≡ spec.is_name_hidden table.now fact other }
{
    match fact {
        Fact::Stands(number, count, Thing::Module(at)) => match other {
            Fact::Names(home, namespace, name, _, visibility) => {
                home == at && is_for_others(table, number, count, namespace, name, visibility)
            }
            _ => false,
        },
        _ => false,
    }
}

// Whether an import asks there for a name, which is for others.
fn is_for_others(
    table: &ImportTable,
    number: u32,
    count: usize,
    namespace: Namespace,
    name: u32,
    visibility: Visibility,
) -> bool
    ensures { result ≡ spec.is_for_others table.now number count namespace name visibility }
{
    let Some(import) = table.imports.get(number as usize) else {
        return false;
    };
    let Some(wanted) = import.path.get(count) else {
        return false;
    };
    *wanted == name
        && asks_in(import, count, namespace)
        && !sees(&table.parents, import.home, visibility)
}

// Whether an import asks for a name of its path in a namespace.
fn asks_in(import: &Import, count: usize, namespace: Namespace) -> bool
    requires { count < length import.now.path.items }
    ensures { result ≡ spec.asks_in import.now count namespace }
{
    if is_glob(import.name) || count + 1 < import.path.len() {
        return are_types(namespace);
    }
    are_types(namespace) || !import.types_alone
}
