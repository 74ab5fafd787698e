//! Entries by the trees in which they stand.
ghost use Rattle.std.specs.Prelude.{◌≡◌, ◌||◌, ◌&&◌, not, true, false, [], OnErr, OnOk, if◌then◌else◌};
ghost use Rattle.std.specs.Option.{option_map_or};
ghost use Rattle.std.specs.BTreeMap.{is_at};
ghost use Rattle.decl_index.specs.declared.entry.Entry.{Entry as EntryView};
ghost use Rattle.decl_index.specs.EntryOrder.{entry_cmp};
ghost use Rattle.decl_index.specs.Inner.{is_entry_among, is_filed, filed_at};

use crate::by_name::set_of_one;
use crate::entry::Entry;
use hir_input::Crate;
use item_tree_db::Place;
use std::alloc::{AllocError, Global};
use std::collections::{BTreeMap, BTreeSet};

/// The entries of each crate's tree of a place.
pub type Trees = BTreeMap<(Place, u32), BTreeSet<Entry>>;

/// Those of a tree, if it has or had any.
pub fn entries_of(trees: &Trees, place: Place, krate: Crate) -> Option<&BTreeSet<Entry>>
    ensures { option_map_or (λ tree. tree.now.keys) result []
        ≡ (filed_at trees.now place krate.0).keys }
{
    trees.get(&(place, krate.0))
}

// Adds an entry as the only one of its tree.
fn file_first(trees: &mut Trees, alloc: Global, entry: Entry) -> Result<(), AllocError>
    requires { (filed_at trees.old entry.place entry.krate.0).keys ≡ [] }
    ensures ok { OnOk result ((q : EntryView)
        → is_filed trees.new q ≡ (if is_at (entry_cmp entry) q then true else is_filed trees.old q)) }
    ensures err { OnErr result ((q : EntryView) → is_filed trees.new q ≡ is_filed trees.old q) }
{
    let key = (entry.place, entry.krate.0);
    let tree = set_of_one(alloc, entry)?;
    trees.insert(key, tree)?;
    Ok(())
}

// Adds an entry to those of its tree.
fn file(trees: &mut Trees, alloc: Global, entry: Entry) -> Result<(), AllocError>
    ensures ok { OnOk result ((q : EntryView)
        → is_filed trees.new q ≡ (if is_at (entry_cmp entry) q then true else is_filed trees.old q)) }
    ensures err { OnErr result ((q : EntryView) → is_filed trees.new q ≡ is_filed trees.old q) }
{
    let key = (entry.place, entry.krate.0);
    match trees.get_mut(&key) {
        Some(tree) => {
            tree.insert(entry)?;
            Ok(())
        }
        None => file_first(trees, alloc, entry),
    }
}

fn file_copy(trees: &mut Trees, alloc: Global, entry: &Entry) -> Result<(), AllocError>
    ensures ok { OnOk result ((q : EntryView)
        → is_filed trees.new q ≡ (if is_at (entry_cmp entry.now) q then true else is_filed trees.old q)) }
    ensures err { OnErr result ((q : EntryView) → is_filed trees.new q ≡ is_filed trees.old q) }
{
    let copy = entry.clone()?;
    file(trees, alloc, copy)
}

// Takes an entry out of those of its tree.
fn take_out(trees: &mut Trees, entry: &Entry)
    ensures { (q : EntryView) → is_filed trees.new q
        ≡ (if is_at (entry_cmp entry.now) q then false else is_filed trees.old q) }
{
    if let Some(tree) = trees.get_mut(&(entry.place, entry.krate.0)) {
        tree.remove(entry);
    }
}

fn is_empty(trees: &Trees, place: Place, krate: Crate) -> bool
    ensures { result ≡ true → (filed_at trees.now place krate.0).keys ≡ [] }
{
    match trees.get(&(place, krate.0)) {
        Some(tree) => tree.is_empty(),
        None => false,
    }
}

// Forgets a tree, if nothing is left of it.
fn forget_empty(trees: &mut Trees, place: Place, krate: Crate)
    ensures { (q : EntryView) → is_filed trees.new q ≡ is_filed trees.old q }
{
    if is_empty(trees, place, krate) {
        trees.remove(&(place, krate.0));
    }
}

/// Adds entries to those of their trees, where memory runs out only the first of them.
pub fn file_each(trees: &mut Trees, alloc: Global, entries: &[Entry]) -> Result<(), AllocError>
    ensures kept { (q : EntryView) → is_filed trees.old q ≡ true → is_filed trees.new q ≡ true }
    ensures ok { OnOk result ((q : EntryView) → is_entry_among q entries.now ≡ true
        → is_filed trees.new q ≡ true) }
{
    for entry in entries {
        file_copy(trees, alloc, entry)?;
    }
    Ok(())
}

/// Takes entries out of those of their trees.
pub fn take_out_each(trees: &mut Trees, entries: &[Entry])
    ensures { (q : EntryView) → is_filed trees.new q
        ≡ (is_filed trees.old q && not (is_entry_among q entries.now)) }
{
    for entry in entries {
        take_out(trees, entry);
        forget_empty(trees, entry.place, entry.krate);
    }
}
