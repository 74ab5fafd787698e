//! What imports lead to.
ghost use Rattle.std.specs.Prelude.{◌≡◌, IfOk, OnOk};
ghost use Rattle.std.specs.Option.{option_to_list};
ghost use Rattle.def_map.specs.Inner.Closing.{IsIndexed};
ghost use Rattle.def_map.specs.Numbering.{Interns};
ghost use Rattle.def_map.specs.Targets as spec;
ghost use Rattle.def_map.specs.Targets.{AreTargetsBy, target_eq};

use crate::closure::Closure;
use crate::fact_index::Key;
use crate::facts::{Fact, ImportTable, Thing};
use crate::numbers::Numbers;
use crate::rows::ItemKey;
use crate::verdict::lead_by;
use hir_input::FileAstId;
use indexmap::IndexSet;
use module_tree::ModuleId;
use std::alloc::{AllocError, Global};
use std::hash::{Hash, Hasher};

/// What an import leads to.
#[derive(Clone, Copy, Debug, PartialEq, Eq)]
pub enum Target {
    Module(ModuleId),
    /// An item, by its module and its id in the file of that; also an enum or a trait.
    Item { module: ModuleId, item: FileAstId },
    /// What a macro or another crate may hold.
    Unseen,
}

// (By hand, as that of `ItemKey`.)
impl Hash for Target {
    ghost use Rattle.std.specs.Cmp.Rules.{hashing};
    ghost use Rattle.std.proofs.Common.{rules};
    ghost use Rattle.def_map.specs.Targets.{target_writes};

    ghost hash_input = { target_writes };

    ghost respects_eq = { Prim.search (hashing, rules) };

    fn hash<H: Hasher>(&self, state: &mut H) {
        match self {
            Target::Module(id) => id.0.hash(state),
            Target::Item { module, item } => {
                module.0.hash(state);
                item.hash.hash(state);
                item.number.hash(state);
            }
            Target::Unseen => {}
        }
    }
}

fn item_target(key: ItemKey) -> Target
    ensures { result ≡ spec.item_target key }
{
    Target::Item {
        module: ModuleId(key.at as usize),
        item: key.id,
    }
}

// What stands behind a thing by numbers.
fn target_by(numbers: &Numbers<'_>, thing: Thing) -> Target
    ensures { result ≡ spec.target_by numbers.now.items.keys thing }
{
    match thing {
        Thing::Module(at) => Target::Module(ModuleId(at as usize)),
        Thing::Item(number) | Thing::Scope(number) => match numbers.item_key(number) {
            Some(key) => item_target(key),
            None => Target::Unseen,
        },
        Thing::Unseen => Target::Unseen,
    }
}

fn thing_of(fact: Fact) -> Option<Thing>
    ensures { result ≡ spec.fact_thing fact }
{
    match fact {
        Fact::Stands(_, _, thing) | Fact::Gives(_, _, thing, _) => Some(thing),
        _ => None,
    }
}

// The thing to which an import leads by a fact.
fn led_thing(table: &ImportTable, number: u32, fact: Fact) -> Option<Thing>
    ensures { result ≡ spec.led_thing table.now number fact }
{
    let Some((own, lead)) = lead_by(table, fact) else {
        return None;
    };
    if own == number && lead.leads {
        return thing_of(fact);
    }
    None
}

fn target_at(
    table: &ImportTable,
    numbers: &Numbers<'_>,
    facts: &IndexSet<Fact>,
    number: u32,
    place: u32,
) -> Option<Target>
    ensures { result ≡ spec.place_target table.now numbers.now.items.keys facts.now.keys number place }
{
    let fact = facts.get_index(place as usize)?;
    let thing = led_thing(table, number, *fact)?;
    Some(target_by(numbers, thing))
}

fn put_target(target: Option<Target>, found: &mut IndexSet<Target>) -> Result<(), AllocError>
    ensures { OnOk result
        (Interns target_eq (λ x. x) found.old.keys found.new.keys (option_to_list target)) }
{
    let Some(target) = target else {
        return Ok(());
    };
    found.insert(target)?;
    Ok(())
}

/// All that an import leads to, by all facts that follow.
pub(crate) fn import_targets(
    alloc: Global,
    table: &ImportTable,
    numbers: &Numbers<'_>,
    closure: &Closure,
    number: u32,
) -> Result<Vec<Target>, AllocError>
    requires { IsIndexed table.now closure.now.facts.keys closure.now.index }
    ensures { IfOk result (λ found.
        AreTargetsBy table.now numbers.now.items.keys closure.now.facts.keys number found.items) }
{
    let mut found = IndexSet::new(alloc);
    for place in closure.index.places(Some(Key::EndOf(number))) {
        put_target(
            target_at(table, numbers, &closure.facts, number, *place),
            &mut found,
        )?;
    }
    Vec::from_slice(alloc, found.as_slice())
}
