//! Entries by their names and by their trees.
ghost use Rattle.std.specs.Prelude.{◌≡◌, ◌↔◌, ◌⊎◌, false, [], Contains, filter, map, IfOk, OnErr, OnOk};
ghost use Rattle.std.specs.Prelude.{◌++◌};
ghost use Rattle.std.specs.List.Sorted.{IsStrictlySortedBy};
ghost use Rattle.decl_index.specs.declared.entry.Entry.{Entry as EntryView};
ghost use Rattle.decl_index.specs.EntryOrder.{entry_cmp};
ghost use Rattle.decl_index.specs.Inner.{AreGone, IsOfOne, is_declared};
ghost use Rattle.decl_index.specs.Lookup.{entry_has_name};

use crate::by_name::{Shelves, holds, put_all, take_each};
use crate::by_tree::{Trees, file_each, take_out_each};
use crate::entry::Entry;
use crate::gone::{gone_among, gone_of};
use hir_input::Name;
use item_tree_db::{ChangedSince, Sources};
use std::alloc::{AllocError, Global};
use std::collections::{BTreeMap, BTreeSet};
use std::marker::Model;

/// Entries, found by their names and by their trees in time that hardly grows with them.
#[derive(Debug, Drop)]
pub struct Catalog {
    shelves: Shelves,
    /// They hold what stands on the shelves, and maybe more.
    trees: Trees,
    /// What is lent for a name without a shelf.
    none: BTreeSet<Entry>,
}

impl Model for Catalog {
    ghost use Rattle.std.specs.Prelude.{◌≡◌, [], List};
    ghost use Rattle.decl_index.specs.declared.entry.Entry.{Entry as EntryView};
    ghost use Rattle.decl_index.specs.Inner.{IsCatalog, shelf_entries};

    ghost Value = { List EntryView };

    ghost view = { λ x. shelf_entries x.shelves };

    ghost invariant = { λ x. IsCatalog x.shelves x.trees x.none.keys };
}

// Adds entries to a list of such.
fn push_lent<'a>(set: &'a BTreeSet<Entry>, all: &mut Vec<&'a Entry>) -> Result<(), AllocError>
    ensures { OnOk result (map (λ e. e.now) all.new.items
        ≡ map (λ e. e.now) all.old.items ++ set.now.keys) }
{
    for entry in set {
        all.push(entry)?;
    }
    Ok(())
}

impl Catalog {
    pub fn new(alloc: Global) -> Catalog
        ensures { result ≡ [] }
    {
        Catalog {
            shelves: BTreeMap::new(alloc),
            trees: BTreeMap::new(alloc),
            none: BTreeSet::new(alloc),
        }
    }

    /// All entries, in their order.
    pub fn entries(&self, alloc: Global) -> Result<Vec<&Entry>, AllocError>
        ensures { IfOk result (λ all. map (λ e. e.now) all.items ≡ self.now) }
    {
        let mut all = Vec::new(alloc);
        for shelf in self.shelves.values() {
            push_lent(shelf, &mut all)?;
        }
        Ok(all)
    }

    /// The entries of a name, in their order.
    pub fn get(&self, name: &Name) -> &BTreeSet<Entry>
        ensures { result.now.keys ≡ filter (entry_has_name name.now) self.now }
    {
        match self.shelves.get(name.text()) {
            Some(shelf) => shelf,
            None => &self.none,
        }
    }

    /// Those that the table does not declare.
    pub fn gone_entries(&self, alloc: Global, sources: &Sources) -> Result<Vec<Entry>, AllocError>
        ensures { IfOk result (λ gone. AreGone sources.now self.now gone.items) }
    {
        let all = self.entries(alloc)?;
        gone_of(alloc, sources, &all)
    }

    /// The same, where each of them is of a tree that changed.
    pub fn gone_among(
        &self,
        alloc: Global,
        sources: &Sources,
        changes: ChangedSince<'_>,
    ) -> Result<Vec<Entry>, AllocError>
        requires { (e : EntryView) → Contains self.now e → is_declared sources.now e ≡ false
            → IsOfOne changes e }
        ensures { IfOk result (λ gone. AreGone sources.now self.now gone.items) }
    {
        gone_among(alloc, sources, &self.trees, changes)
    }

    /// Adds entries, or none of them.
    pub fn put(&mut self, alloc: Global, mut fresh: Vec<Entry>) -> Result<(), AllocError>
        ensures ok { OnOk result ((e : EntryView)
            → Contains self.new e ↔ (Contains self.old e ⊎ Contains fresh.items e)) }
        ensures err { OnErr result (self.new ≡ self.old) }
    {
        let shelves = &self.shelves;
        fresh.retain(|entry| !holds(shelves, entry));
        file_each(&mut self.trees, alloc, &fresh)?;
        put_all(&mut self.shelves, alloc, &fresh)
    }

    /// Takes entries out.
    pub fn take(&mut self, gone: &[Entry])
        ensures left { (e : EntryView)
            → Contains self.new e ↔ (Contains self.old e × (Contains gone.now e → ⊥)) }
        ensures sorted { IsStrictlySortedBy entry_cmp self.new }
    {
        take_each(&mut self.shelves, gone);
        take_out_each(&mut self.trees, gone);
    }
}
