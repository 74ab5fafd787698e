//! All that follows from facts by a table.

ghost use Rattle.std.specs.Prelude.{◌≡◌, ◌+◌, ◌^◌, ◌<◌, ◌≤◌, [], ◌∷◌, All};
ghost use Rattle.std.specs.Prelude.{Contains, IfOk, IfErr, OnOk, length, slice_get};
ghost use Rattle.def_map.specs.Closure.{AreClosed, AreWhole, HasTooManyFacts, HasTooManyJoins, most_facts, most_joins};
ghost use Rattle.def_map.specs.Inner.Closing.{meets, met_at, PutsIf, AnswersFact, StaysFew, Reaches};
ghost use Rattle.def_map.specs.Inner.Closing.{Seeds, IsFactFollowed, IsMet, IsApplied, IsFault, IsIndexed};
ghost use Rattle.def_map.specs.declared.closure.ClosureError.TheVariants.{TooManyFacts, TooManyJoins};
ghost use Rattle.def_map.specs.declared.kinds.Namespace.TheVariants.{Types, Values, Macros};

use crate::fact_index::FactIndex;
use crate::facts::{Fact, ImportTable};
use crate::kinds::Namespace;
use indexmap::IndexSet;
use std::alloc::{AllocError, AllocFailed, Global};
use thiserror::Error;

/// The most facts of a crate.
pub const MOST_FACTS: usize = 1 << 21;

/// How often two facts meet, at most.
pub const MOST_JOINS: usize = 1 << 23;

/// Why it was not found what follows.
#[derive(Clone, Copy, Debug, PartialEq, Eq, Error)]
pub enum ClosureError {
    /// The allocator refused memory.
    #[error("out of memory")]
    OutOfMemory,
    /// More than `MOST_FACTS` follow.
    #[error("too many facts")]
    TooManyFacts,
    /// Facts that follow meet more often than `MOST_JOINS`.
    #[error("too many joins")]
    TooManyJoins,
}

impl From<AllocError> for ClosureError {
    ghost use Rattle.std.specs.Prelude.{◌≡◌};
    ghost use Rattle.def_map.specs.declared.closure.ClosureError.TheVariants.{OutOfMemory};

    ghost from_gives = { λ _ e. e ≡ OutOfMemory };

    fn from(_refused: AllocError) -> ClosureError {
        ClosureError::OutOfMemory
    }
}

impl<T: Drop> From<AllocFailed<T>> for ClosureError {
    ghost use Rattle.std.specs.Prelude.{◌≡◌};
    ghost use Rattle.def_map.specs.declared.closure.ClosureError.TheVariants.{OutOfMemory};

    ghost from_gives = { λ _ e. e ≡ OutOfMemory };

    fn from(_refused: AllocFailed<T>) -> ClosureError {
        ClosureError::OutOfMemory
    }
}

/// All that follows from facts, and where in it each stands.
#[derive(Drop)]
pub struct Closure {
    pub facts: IndexSet<Fact>,
    pub index: FactIndex,
}

/// All that follows from these facts by a table, or that it is too much.
pub fn find_closure(
    alloc: Global,
    table: &ImportTable,
    seeds: &[Fact],
) -> Result<Closure, ClosureError>
    ensures sound { IfOk result (λ found. AreClosed table.now seeds.now found.facts.keys) }
    ensures complete { IfOk result (λ found. AreWhole table.now seeds.now found.facts.keys) }
    ensures few { IfOk result (λ found. length found.facts.keys ≤ most_facts) }
    ensures indexed { IfOk result (λ found. IsIndexed table.now found.facts.keys found.index) }
    ensures too_many_facts { result ≡ Err TooManyFacts → HasTooManyFacts table.now seeds.now }
    ensures too_many_joins { result ≡ Err TooManyJoins → HasTooManyJoins table.now seeds.now }
{
    let mut found = IndexSet::new(alloc);
    let mut index = FactIndex::new(alloc);
    let mut joins: usize = 0;
    put_seeds(seeds, &mut found)?;
    for at in 0..MOST_FACTS {
        let Some(fact) = found.as_slice().get(at) else {
            return Ok(Closure {
                facts: found,
                index,
            });
        };
        let fact = *fact;
        let keys = table.met_keys(fact);
        let first = index.places(keys.0);
        let second = index.places(keys.1);
        joins = count_joins(joins, first.len(), second.len())?;
        apply(table, fact, first, second, &mut found)?;
        index.enter(table.own_keys(fact), at as u32)?;
    }
    Ok(Closure {
        facts: found,
        index,
    })
}

fn put_seeds(seeds: &[Fact], found: &mut IndexSet<Fact>) -> Result<(), ClosureError>
    ensures grows { Seeds seeds.now found.old.keys found.new.keys }
    ensures has { OnOk result (All (Contains found.new.keys) seeds.now) }
    ensures few { OnOk result (StaysFew found.old.keys found.new.keys) }
    ensures refused { IfErr result (IsFault found.new.keys) }
{
    for fact in seeds {
        put_if(Some(*fact), found)?;
    }
    Ok(())
}

// Counts the pairs in which a fact meets those at two keys.
fn count_joins(joins: usize, first: usize, second: usize) -> Result<usize, ClosureError>
    requires small { joins ≤ most_joins }
    requires first_fits { first < 2 ^ 63 }
    requires second_fits { second < 2 ^ 63 }
    ensures counted { IfOk result (λ sum. sum ≡ joins + (first + second)) }
    ensures small { IfOk result (λ sum. sum ≤ most_joins) }
    ensures refused { IfErr result (λ e. e ≡ TooManyJoins) }
    ensures many { IfErr result (λ e. most_joins < joins + (first + second)) }
{
    let more = first + second;
    if MOST_JOINS - joins < more {
        return Err(ClosureError::TooManyJoins);
    }
    Ok(joins + more)
}

// What follows from a fact, and from it and each of those that it meets.
fn apply(
    table: &ImportTable,
    fact: Fact,
    first: &[u32],
    second: &[u32],
    found: &mut IndexSet<Fact>,
) -> Result<(), ClosureError>
    ensures reaches { Reaches table.now fact found.old.keys found.new.keys }
    ensures applied { OnOk result (IsApplied table.now fact (Types ∷ Values ∷ Macros ∷ [])
        first.now second.now found.old.keys found.new.keys) }
    ensures few { OnOk result (StaysFew found.old.keys found.new.keys) }
    ensures refused { IfErr result (IsFault found.new.keys) }
{
    let namespaces = [Namespace::Types, Namespace::Values, Namespace::Macros];
    follow(table, fact, &namespaces, found)?;
    meet(table, fact, first, found)?;
    meet(table, fact, second, found)
}

// What follows from a fact in these namespaces.
fn follow(
    table: &ImportTable,
    fact: Fact,
    namespaces: &[Namespace],
    found: &mut IndexSet<Fact>,
) -> Result<(), ClosureError>
    ensures reaches { Reaches table.now fact found.old.keys found.new.keys }
    ensures followed { OnOk result (All (IsFactFollowed table.now fact found.new.keys) namespaces.now) }
    ensures few { OnOk result (StaysFew found.old.keys found.new.keys) }
    ensures refused { IfErr result (IsFault found.new.keys) }
{
    for namespace in namespaces {
        put_if(table.follow(*namespace, fact), found)?;
    }
    Ok(())
}

// What follows from a fact and from those at these places.
fn meet(
    table: &ImportTable,
    fact: Fact,
    places: &[u32],
    found: &mut IndexSet<Fact>,
) -> Result<(), ClosureError>
    ensures reaches { Reaches table.now fact found.old.keys found.new.keys }
    ensures met { OnOk result (All (IsMet table.now fact found.old.keys found.new.keys) places.now) }
    ensures few { OnOk result (StaysFew found.old.keys found.new.keys) }
    ensures refused { IfErr result (IsFault found.new.keys) }
{
    for place in places {
        put_if(meet_at(table, fact, *place, found), found)?;
    }
    Ok(())
}

// What follows from a fact and from the one at a place.
fn meet_at(table: &ImportTable, fact: Fact, place: u32, found: &IndexSet<Fact>) -> Option<Fact>
    ensures { result ≡ met_at table.now fact (slice_get found.now.keys place) }
{
    let other = found.get_index(place as usize)?;
    meet_two(table, fact, *other)
}

// What follows from two facts.
#[tactic(auto, unfolding(crate::specs::Inner::Closing::meets))]
fn meet_two(table: &ImportTable, fact: Fact, other: Fact) -> Option<Fact>
    ensures { result ≡ meets table.now fact other }
{
    match fact {
        Fact::Names(_, _, _, _, _) | Fact::EveryName(_, _, _) => table.conclude(fact, other),
        _ => table.conclude(other, fact),
    }
}

fn put_if(fact: Option<Fact>, found: &mut IndexSet<Fact>) -> Result<(), ClosureError>
    ensures puts { PutsIf fact found.old.keys found.new.keys }
    ensures has { OnOk result (AnswersFact fact found.new.keys) }
    ensures few { OnOk result (StaysFew found.old.keys found.new.keys) }
    ensures refused { IfErr result (IsFault found.new.keys) }
{
    let Some(fact) = fact else {
        return Ok(());
    };
    found.insert(fact)?;
    if MOST_FACTS < found.len() {
        return Err(ClosureError::TooManyFacts);
    }
    Ok(())
}
