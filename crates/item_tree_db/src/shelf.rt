//! The entries of places, in their order.
ghost use Rattle.std.specs.Prelude.{◌≡◌, ◌≤◌, [], length, map, slice_get, Some, option_map, option_and_then};
ghost use Rattle.std.specs.Prelude.{option_copied, IfOk, IfErr, IfSome, OnOk, OnErr};
ghost use Rattle.std.specs.List.Sorted.{IsStrictlySortedBy};
ghost use Rattle.item_tree.specs.CrateView.{crate_view};
ghost use Rattle.item_tree_db.specs.declared.place.Place.{Place};
ghost use Rattle.item_tree_db.specs.Inner.Settled.{settle_all};
ghost use Rattle.item_tree_db.specs.Inner.Shelf.{placed_at, source_in, HasPut, set_to, take_out, recast_one};
ghost use Rattle.item_tree_db.specs.Inner.Shelf.{fresh_of, recast_each, IsInOrder};
ghost use Rattle.item_tree_db.specs.Inner.Sizes.{PlacesFit, PlacesPass};
ghost use Rattle.item_tree_db.specs.Refusal.{UnlessMemory};
ghost use Rattle.item_tree_db.specs.Inner.Source.{source_place};
ghost use Rattle.item_tree_db.specs.State.{crate_limit};
ghost use Rattle.item_tree_db.specs.PlaceOrder.{place_cmp};
ghost use Rattle.item_tree_db.specs.Inner.Recent.{newest_number};
ghost use Rattle.item_tree_db.specs.Inner.Walk.{HasFewRows, HoldNumbers, all_changes, late_changes, over_all};
ghost use Rattle.item_tree_db.specs.Inner.Walk.{rows_in, walk_over};

use crate::place::Place;
use crate::recent::Recent;
use crate::rows::{Row, clear, lower_row, newest_number, settle, settle_first, settle_row};
use crate::since::{ChangedSince, Chosen, Slots};
use crate::source::Source;
use hir_input::Name;
use item_tree::{CrateData, LowerError};
use std::alloc::{AllocError, Global};
use std::collections::{BTreeMap, BTreeSet};
use std::marker::Model;

/// What a place has: what is set at it, and a tree and a change number for each crate.
#[derive(Drop)]
pub struct Entry {
    source: Option<Source>,
    rows: Vec<Row>,
}

impl Model for Entry {
    ghost use Rattle.item_tree_db.specs.Inner.Shelf.{Shelved};
    ghost use Rattle.item_tree_db.specs.Inner.Codes.{placed_code};

    ghost Value = { Shelved };

    ghost coded = { placed_code };

    ghost view = { λ a. record { source = a.source; rows = a.rows.items } };
}

impl Entry {
    fn new(source: Source, rows: Vec<Row>) -> Entry
        ensures { result ≡ record { source = Some source; rows = rows.items } }
    {
        Entry {
            source: Some(source),
            rows,
        }
    }

    pub fn source(&self) -> Option<&Source>
        ensures { option_copied result ≡ self.now.source }
    {
        self.source.as_ref()
    }

    pub fn row(&self, index: usize) -> Option<&Row>
        ensures { option_copied result ≡ slice_get self.now.rows index }
    {
        self.rows.get(index)
    }

    pub fn rows(&self) -> &[Row]
        ensures { result.now ≡ self.now.rows }
    {
        &self.rows
    }

    fn newest_number(&self) -> u64
        ensures { result ≡ newest_number self.now.rows }
    {
        newest_number(&self.rows)
    }

    fn set(&mut self, source: Source, fresh: Vec<Row>, number: u64)
        requires { length fresh.items ≡ length self.old.rows }
        ensures { self.new ≡ record {
          source = Some source;
          rows = settle_all number self.old.rows
              fresh.items;
        } }
    {
        self.source = Some(source);
        settle(&mut self.rows, fresh, number);
    }

    fn recast(&mut self, index: usize, fresh: &mut Row, number: u64)
        ensures { self.new ≡ recast_one number index fresh.old self.old }
    {
        if index < self.rows.len() {
            settle_row(&mut self.rows[index], fresh, number);
        }
    }

    fn into_source(self) -> Option<Source>
        ensures { result ≡ self.source }
    {
        self.source
    }

    fn remove(&mut self, alloc: Global, number: u64)
        ensures { self.new ≡ take_out number self.old }
    {
        self.source = None;
        clear(&mut self.rows, alloc, number);
    }
}

/// Entries by place, and which of them changed lately.
#[derive(Drop)]
pub struct Shelf {
    entries: BTreeMap<Place, Entry>,
    recent: Recent,
}

impl Model for Shelf {
    ghost use Rattle.item_tree_db.specs.Inner.Shelf.{Places};
    ghost use Rattle.item_tree_db.specs.Inner.Codes.{places_code};
    ghost use Rattle.item_tree_db.specs.Inner.Recent.{AreNoted};

    ghost Value = { Places };

    ghost coded = { places_code };

    ghost view = { λ a. a.entries.entries };

    ghost invariant = { λ a. AreNoted a.recent a.entries.entries };
}

impl Shelf {
    pub fn new(alloc: Global) -> Shelf
        ensures { result ≡ [] }
    {
        Shelf {
            entries: BTreeMap::new(alloc),
            recent: Recent::new(alloc),
        }
    }

    /// What is set at a place.
    pub fn source(&self, place: Place) -> Option<&Source>
        ensures { option_copied result ≡ source_in (placed_at self.now place) }
    {
        match self.entries.get(&place) {
            Some(entry) => entry.source(),
            None => None,
        }
    }

    /// A crate's row of a place that was ever set.
    pub fn row(&self, place: Place, index: usize) -> Option<&Row>
        ensures { option_copied result
            ≡ option_and_then (λ placed. slice_get placed.rows index) (placed_at self.now place) }
    {
        match self.entries.get(&place) {
            Some(entry) => entry.row(index),
            None => None,
        }
    }

    /// The rows of a place: none where it was never set.
    pub fn rows(&self, place: Place) -> &[Row]
        ensures { result.now ≡ rows_in (placed_at self.now place) }
    {
        match self.entries.get(&place) {
            Some(entry) => entry.rows(),
            None => &[],
        }
    }

    /// Sets a place, with what that brings to each crate. All growth comes before the first change.
    pub fn set(
        &mut self,
        alloc: Global,
        source: Source,
        mut fresh: Vec<Row>,
        start: u64,
        number: u64,
    ) -> Result<(), Source>
        requires { IfSome (placed_at self.old (source_place source))
            (λ placed. length fresh.items ≡ length placed.rows) }
        ensures ok { let place = source_place source in
            OnOk result (HasPut place (Some (set_to start number source fresh.items (placed_at self.old place)))
            self.old self.new) }
        ensures err { OnErr result (self.new ≡ self.old) }
        ensures returned { IfErr result (λ back. back ≡ source) }
    {
        let place = source.place();
        match self.entries.get_mut(&place) {
            Some(entry) => {
                let old = entry.newest_number();
                entry.set(source, fresh, number);
                let new = entry.newest_number();
                self.recent.renote(place, old, new);
                Ok(())
            }
            None => {
                settle_first(&mut fresh, alloc, start, number);
                let entry = Entry::new(source, fresh);
                let new = entry.newest_number();
                match self.entries.insert(place, entry) {
                    Ok(_) => {
                        self.recent.note(place, new);
                        Ok(())
                    }
                    Err(failed) => {
                        let (_, entry) = failed.value;
                        Err(entry.into_source().unwrap())
                    }
                }
            }
        }
    }

    /// Removes what is set at a place. Needs no memory.
    pub fn remove(&mut self, alloc: Global, place: Place, number: u64)
        ensures { HasPut place (option_map (take_out number) (placed_at self.old place)) self.old
            self.new }
    {
        if let Some(entry) = self.entries.get_mut(&place) {
            let old = entry.newest_number();
            entry.remove(alloc, number);
            let new = entry.newest_number();
            self.recent.leave_out(place, old, new);
        }
    }

    // Brings one crate another tree of a place, if it is there.
    fn recast_at(&mut self, place: Place, index: usize, fresh: &mut Row, number: u64)
        ensures { HasPut place (option_map (recast_one number index fresh.old)
            (placed_at self.old place)) self.old self.new }
    {
        if let Some(entry) = self.entries.get_mut(&place) {
            let old = entry.newest_number();
            entry.recast(index, fresh, number);
            let new = entry.newest_number();
            self.recent.renote(place, old, new);
        }
    }

    /// Brings one crate other trees. An equal tree stays, with its number. Needs no memory.
    pub fn recast(&mut self, index: usize, fresh: Vec<(Place, Row)>, number: u64)
        ensures { (place : Place) →
            placed_at self.new place ≡ recast_each number index fresh.items place (placed_at self.old place) }
    {
        for (place, mut row) in fresh {
            self.recast_at(place, index, &mut row, number);
        }
    }

    /// What is set at each place lowered for one crate, under its own options.
    pub fn lower_for(
        &self,
        alloc: Global,
        krate: &CrateData,
        skipped: &[Name],
        number: u64,
    ) -> Result<Vec<(Place, Row)>, LowerError>
        ensures fresh { let fresh = fresh_of number skipped.now (Some (crate_view krate.now)) in
            IfOk result (λ rows. rows.items ≡ map (λ e. (e.0, fresh e.0 e.1)) self.now) }
        ensures fits { OnOk result (PlacesFit skipped.now (Some (crate_view krate.now)) self.now) }
        ensures refused { IfErr result
            (UnlessMemory (PlacesPass skipped.now (Some (crate_view krate.now)) self.now)) }
        ensures in_order { IsInOrder self.now }
    {
        let mut fresh = Vec::with_capacity(alloc, self.entries.len())?;
        for (place, entry) in &self.entries {
            let row = lower_row(alloc, krate, skipped, *place, entry.source(), number)?;
            fresh.push((*place, row))?;
        }
        Ok(fresh)
    }

    /// The change numbers above a bound.
    pub fn changes_above(&self, above: u64) -> ChangedSince<'_>
        requires { HasFewRows self.now }
        ensures value { result ≡ late_changes above (all_changes (over_all self.now)) }
        ensures in_order { IsInOrder self.now }
    {
        ChangedSince::new(Slots::All(self.entries.iter()), above)
    }

    /// Places that hold each that has a change number above a bound: none where one may be missing.
    pub fn places_above(
        &self,
        alloc: Global,
        above: u64,
    ) -> Result<Option<BTreeSet<Place>>, AllocError>
        ensures { IfOk result (λ found. IfSome found (λ places. HoldNumbers above self.now places.keys)) }
    {
        self.recent.places_above(alloc, above)
    }

    /// Those of some places.
    pub fn late_among<'a>(&'a self, above: u64, places: &'a BTreeSet<Place>) -> ChangedSince<'a>
        requires { HasFewRows self.now }
        ensures value { result ≡ late_changes above (all_changes (walk_over self.now places.now.keys)) }
        ensures in_order { IsStrictlySortedBy place_cmp places.now.keys }
    {
        ChangedSince::new(Slots::Among(Chosen::new(places.iter(), self)), above)
    }
}
