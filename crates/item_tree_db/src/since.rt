//! What changed since a number.
ghost use Rattle.std.specs.Prelude.{IfOk};
ghost use Rattle.item_tree_db.specs.Inner.Walk.{HoldChanged};

use crate::place::Place;
use crate::rows::Row;
use crate::shelf::{Entry, Shelf};
use hir_input::{Crate, HirFileId};
use std::alloc::{AllocError, Global};
use std::collections::{BTreeSet, btree_map, btree_set};
use std::marker::Model;

/// Some places of a shelf, each looked up in its turn.
#[derive(Drop)]
pub(crate) struct Chosen<'a> {
    places: btree_set::Iter<'a, Place>,
    shelf: &'a Shelf,
}

impl<'a> Chosen<'a> {
    ghost use Rattle.std.specs.Prelude.{◌≡◌};
    ghost use Rattle.std.specs.Map.Iter.{TakesFirst};
    ghost use Rattle.item_tree_db.specs.Inner.Walk.{chosen_walk, walk_over};

    pub(crate) fn new(places: btree_set::Iter<'a, Place>, shelf: &'a Shelf) -> Self
        ensures { chosen_walk result ≡ walk_over shelf.now places.entry }
    {
        Chosen { places, shelf }
    }

    // The next place, with its rows.
    fn step(&mut self) -> Option<(Place, &'a [Row])>
        ensures { TakesFirst (λ slot. (slot.0, slot.1.now)) (chosen_walk self.old) result
            (chosen_walk self.new) }
    {
        let place = *self.places.next()?;
        Some((place, self.shelf.rows(place)))
    }
}

/// What a walk has left: all places of a shelf, or some.
#[derive(Drop)]
pub(crate) enum Slots<'a> {
    All(btree_map::Iter<'a, Place, Entry>),
    Among(Chosen<'a>),
}

impl<'a> Slots<'a> {
    ghost use Rattle.std.specs.Map.Iter.{TakesFirst};
    ghost use Rattle.item_tree_db.specs.Inner.Walk.{walk_of};

    // The next place, with its rows.
    fn step(&mut self) -> Option<(Place, &'a [Row])>
        ensures { TakesFirst (λ slot. (slot.0, slot.1.now)) (walk_of self.old) result
            (walk_of self.new) }
    {
        match self {
            Slots::All(entries) => {
                let (place, entry) = entries.next()?;
                Some((*place, entry.rows()))
            }
            Slots::Among(chosen) => chosen.step(),
        }
    }
}

/// What changed since a number: places and crates with their change numbers, in order. rust-analyzer has no such type.
#[derive(Drop)]
pub struct ChangedSince<'a> {
    slots: Slots<'a>,
    // Of the place at hand: its rows, and the crate that is next.
    place: Place,
    rows: &'a [Row],
    next: usize,
    above: u64,
}

impl<'a> Model for ChangedSince<'a> {
    ghost use Rattle.std.specs.Prelude.{List, length, ◌≤◌};
    ghost use Rattle.item_tree_db.specs.Since.{Change};
    ghost use Rattle.item_tree_db.specs.State.{crate_limit};
    ghost use Rattle.item_tree_db.specs.Inner.Walk.{HasFew, changes_left, walk_of};

    ghost Value = { List Change };

    ghost view = { λ c. changes_left c.above c.place c.next c.rows.now (walk_of c.slots) };

    ghost invariant = { λ c. record {
      rows : length c.rows.now ≤ crate_limit;
      slots : HasFew (walk_of c.slots);
    } };
}

impl<'a> ChangedSince<'a> {
    ghost use Rattle.std.specs.Prelude.{◌≡◌};
    ghost use Rattle.item_tree_db.specs.Inner.Walk.{HasFew, all_changes, late_changes, walk_of};

    /// The change numbers above a bound.
    pub(crate) fn new(slots: Slots<'a>, above: u64) -> Self
        requires { HasFew (walk_of slots) }
        ensures { result ≡ late_changes above (all_changes (walk_of slots.entry)) }
    {
        ChangedSince {
            slots,
            place: Place::File(HirFileId(0)),
            rows: &[],
            next: 0,
            above,
        }
    }
}

impl<'a> Iterator for ChangedSince<'a> {
    type Item = (Place, Crate, u64);

    ghost use Rattle.std.specs.Iterator.{YieldsFirst, item_count};

    ghost next_gives = { YieldsFirst (λ s. s) };

    ghost remaining = { item_count (λ s. s) };

    fn next(&mut self) -> Option<(Place, Crate, u64)> {
        loop {
            if self.next < self.rows.len() {
                let krate = Crate(self.next as u32);
                let changed = self.rows[self.next].changed;
                self.next += 1;
                if self.above < changed {
                    return Some((self.place, krate, changed));
                }
            } else {
                let (place, rows) = self.slots.step()?;
                self.place = place;
                self.rows = rows;
                self.next = 0;
            }
        }
    }
}

/// The places of changes.
pub(crate) fn places_of(
    alloc: Global,
    changes: ChangedSince<'_>,
) -> Result<BTreeSet<Place>, AllocError>
    ensures { IfOk result (HoldChanged changes.entry) }
{
    let mut places = BTreeSet::new(alloc);
    for (place, _, _) in changes {
        places.insert(place)?;
    }
    Ok(places)
}
