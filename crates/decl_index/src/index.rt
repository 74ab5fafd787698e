//! The index.
ghost use Rattle.std.specs.Prelude.{◌≡◌, ◌++◌, All, List, None, Some, [], filter, map, IfOk, OnOk, OnErr, flat_map};
ghost use Rattle.std.specs.Prelude.{unwrap_or};
ghost use Rattle.item_tree.specs.Shown.{IsContained};
ghost use Rattle.item_tree.specs.Walk.{AreContained};
ghost use Rattle.item_tree_db.specs.Since.{IsGrounded, IsSince};
ghost use Rattle.item_tree_db.specs.State.{IsKnown};
ghost use Rattle.decl_index.specs.Entries.{entries_at, entries_by, entries_of, HasChanged, IsBehind, IsBehindAt};
ghost use Rattle.decl_index.specs.Entries.{IsIndexOf};
ghost use Rattle.decl_index.specs.Inner.{AreChangedEntries, AreGone};
ghost use Rattle.decl_index.specs.Lookup.{entry_has_name};

use crate::catalog::Catalog;
use crate::entry::Entry;
use hir_input::{Crate, Name};
use item_tree::{ItemTree, ModItemId};
use item_tree_db::{ChangedSince, Place, Sources};
use std::alloc::{AllocError, Global};
use std::collections::BTreeSet;
use std::marker::Model;
use tree_walk::{name_at, preorder};

/// An index of the items of a table by their names.
#[derive(Debug)]
pub struct DeclIndex {
    number: Option<u64>,
    entries: Catalog,
}

// (Written out: what is derived is proved anew, field by field, in each crate that drops one.)
impl Drop for DeclIndex {
    fn drop(self) {
        let DeclIndex {
            number: _,
            entries: _,
        } = self;
    }
}

impl Model for DeclIndex {
    ghost use Rattle.std.specs.List.Sorted.{IsStrictlySortedBy};
    ghost use Rattle.decl_index.specs.EntryOrder.{entry_cmp};
    ghost use Rattle.decl_index.specs.Entries.{IndexView};

    ghost Value = { IndexView };

    ghost view = { λ x. (x.number, x.entries) };

    ghost invariant = { λ x. IsStrictlySortedBy entry_cmp x.entries };
}

impl DeclIndex {
    /// An index of nothing. Takes no memory.
    pub fn new(alloc: Global) -> DeclIndex
        ensures { result ≡ (None, []) }
    {
        DeclIndex {
            number: None,
            entries: Catalog::new(alloc),
        }
    }

    /// The number that the table had when the index was last refreshed, if it ever was.
    pub fn number(&self) -> Option<u64>
        ensures { result ≡ self.now.0 }
    {
        self.number
    }

    /// All entries, in their order.
    ///
    /// # Errors
    ///
    /// Only if memory runs out.
    pub fn entries(&self, alloc: Global) -> Result<Vec<&Entry>, AllocError>
        ensures { IfOk result (λ entries. map (λ e. e.now) entries.items ≡ self.now.1) }
    {
        self.entries.entries(alloc)
    }

    /// The entries that have a name, in the order of places, then of crates and ids. Takes no memory.
    pub fn lookup(&self, name: &Name) -> &BTreeSet<Entry>
        ensures { result.now.keys ≡ filter (entry_has_name name.now) self.now.1 }
    {
        self.entries.get(name)
    }

    /// Makes this the index of the table as it stands, and gives how many entries the trees have that changed since the
    /// last refresh: items with a name. Of other trees it looks only at their change numbers and at the items of its
    /// entries, which no clause says.
    ///
    /// The table is the one that the index was refreshed from before, if it ever was, after any edits.
    ///
    /// # Errors
    ///
    /// Only if memory runs out: then the index stays as it was, and can be refreshed again.
    pub fn refresh(&mut self, alloc: Global, sources: &Sources) -> Result<usize, AllocError>
        requires { IsBehind self.old sources.now }
        ensures index { OnOk result (IsIndexOf sources.now self.new) }
        ensures behind { IsBehind self.new sources.now }
        ensures at { OnOk result ((named : List Place) → IsBehindAt self.new named sources.now) }
        ensures changed { IfOk result (HasChanged sources.now (unwrap_or self.old.0 0)) }
        ensures err { OnErr result (self.new ≡ self.old) }
    {
        let since = self.number.unwrap_or(0);
        let fresh = read_late(alloc, sources, since, sources.changed_since(since))?;
        let gone = self.entries.gone_entries(alloc, sources)?;
        self.renew(alloc, sources, fresh, &gone)
    }

    /// The same, where each tree that changed since the last refresh is of one of these places. It looks at no others,
    /// and where none changed, at no entry, which no clause says.
    ///
    /// # Errors
    ///
    /// Those of `refresh`.
    pub fn refresh_among(
        &mut self,
        alloc: Global,
        sources: &Sources,
        places: &BTreeSet<Place>,
    ) -> Result<usize, AllocError>
        requires { IsBehindAt self.old places.now.keys sources.now }
        ensures index { OnOk result (IsIndexOf sources.now self.new) }
        ensures at { OnOk result ((named : List Place) → IsBehindAt self.new named sources.now) }
        ensures changed { IfOk result (HasChanged sources.now (unwrap_or self.old.0 0)) }
        ensures err { OnErr result (self.new ≡ self.old) }
    {
        let since = self.number.unwrap_or(0);
        if sources.changed_among(since, places).next().is_none() {
            self.number = Some(sources.number());
            return Ok(0);
        }
        let changes = sources.changed_among(since, places);
        let fresh = read_late(alloc, sources, since, changes)?;
        let again = sources.changed_among(since, places);
        let gone = self.entries.gone_among(alloc, sources, again)?;
        self.renew(alloc, sources, fresh, &gone)
    }

    // Adds the entries of all trees that changed since the last refresh, and takes out what is gone.
    fn renew(
        &mut self,
        alloc: Global,
        sources: &Sources,
        fresh: Vec<Entry>,
        gone: &[Entry],
    ) -> Result<usize, AllocError>
        requires behind { IsBehind self.old sources.now }
        requires read { AreChangedEntries sources.now (unwrap_or self.old.0 0) fresh.items }
        requires gone { AreGone sources.now self.old.1 gone.now }
        ensures index { OnOk result (IsIndexOf sources.now self.new) }
        ensures behind { IsBehind self.new sources.now }
        ensures at { OnOk result ((named : List Place) → IsBehindAt self.new named sources.now) }
        ensures changed { IfOk result (HasChanged sources.now (unwrap_or self.old.0 0)) }
        ensures err { OnErr result (self.new ≡ self.old) }
    {
        let count = fresh.len();
        let number = sources.number();
        self.entries.put(alloc, fresh)?;
        self.entries.take(gone);
        self.number = Some(number);
        Ok(count)
    }
}

// The entries of all trees that changed since a number, which these changes tell.
fn read_late(
    alloc: Global,
    sources: &Sources,
    since: u64,
    changes: ChangedSince<'_>,
) -> Result<Vec<Entry>, AllocError>
    requires since { IsSince sources.now since changes }
    requires grounded { IsGrounded sources.now }
    ensures { IfOk result (λ fresh. AreChangedEntries sources.now since fresh.items) }
{
    read_changed(alloc, sources, changes)
}

// The entries of trees that changed.
fn read_changed(
    alloc: Global,
    sources: &Sources,
    changes: ChangedSince<'_>,
) -> Result<Vec<Entry>, AllocError>
    requires { All (λ c. IsKnown sources.now c.1) changes }
    ensures { IfOk result (λ fresh. fresh.items ≡ entries_of sources.now changes.entry) }
{
    let mut fresh = Vec::new(alloc);
    for (place, krate, _) in changes {
        read_tree(alloc, sources, place, krate, &mut fresh)?;
    }
    Ok(fresh)
}

// Adds the entries of a tree.
fn read_tree(
    alloc: Global,
    sources: &Sources,
    place: Place,
    krate: Crate,
    fresh: &mut Vec<Entry>,
) -> Result<(), AllocError>
    requires { IsKnown sources.now krate }
    ensures { OnOk result (fresh.new.items ≡ fresh.old.items
        ++ entries_at sources.now place krate) }
{
    let tree = sources.tree(place, krate);
    let ids = preorder(alloc, tree)?;
    read_items(tree, place, krate, &ids, fresh)
}

// Adds the entries of items of a tree.
fn read_items(
    tree: &ItemTree,
    place: Place,
    krate: Crate,
    ids: &[ModItemId],
    fresh: &mut Vec<Entry>,
) -> Result<(), AllocError>
    requires { AreContained tree.now ids.now }
    ensures { OnOk result (fresh.new.items ≡ fresh.old.items
        ++ flat_map (entries_by tree.now place krate) ids.now) }
{
    for id in ids {
        read_item(tree, place, krate, *id, fresh)?;
    }
    Ok(())
}

// Adds the entry of an item, if it has a name.
fn read_item(
    tree: &ItemTree,
    place: Place,
    krate: Crate,
    id: ModItemId,
    fresh: &mut Vec<Entry>,
) -> Result<(), AllocError>
    requires { IsContained tree.now id }
    ensures { OnOk result (fresh.new.items ≡ fresh.old.items
        ++ entries_by tree.now place krate id) }
{
    let Some(name) = name_at(tree, id) else {
        return Ok(());
    };
    let name = name.clone()?;
    fresh.push(Entry {
        name,
        place,
        krate,
        id,
    })?;
    Ok(())
}
