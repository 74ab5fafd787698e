//! Entries on shelves, one for each name.
ghost use Rattle.std.specs.Prelude.{◌≡◌, ℕ, ◌||◌, ◌&&◌, not, true, false, [], ◌∷◌, take, IfOk};
ghost use Rattle.std.specs.Prelude.{OnErr, OnOk, if◌then◌else◌};
ghost use Rattle.std.specs.BTreeMap.{is_at};
ghost use Rattle.decl_index.specs.declared.entry.Entry.{Entry as EntryView};
ghost use Rattle.decl_index.specs.EntryOrder.{entry_cmp};
ghost use Rattle.decl_index.specs.Inner.{AreShelved, is_entry_among, shelf_at, is_shelved};

use crate::entry::Entry;
use std::alloc::{AllocError, Global};
use std::collections::{BTreeMap, BTreeSet};

/// A shelf for each name that an entry has, and maybe empty ones.
pub type Shelves = BTreeMap<String, BTreeSet<Entry>>;

/// A set of one entry.
pub fn set_of_one(alloc: Global, entry: Entry) -> Result<BTreeSet<Entry>, AllocError>
    ensures { IfOk result (λ set. set.keys ≡ entry ∷ []) }
{
    let mut set = BTreeSet::new(alloc);
    set.insert(entry)?;
    Ok(set)
}

/// Whether an entry stands on the shelf of its name.
pub fn holds(shelves: &Shelves, entry: &Entry) -> bool
    ensures { result ≡ is_shelved shelves.now entry.now }
{
    match shelves.get(entry.name.text()) {
        Some(shelf) => shelf.contains(entry),
        None => false,
    }
}

// Puts an entry on a new shelf of its name.
fn put_first(shelves: &mut Shelves, alloc: Global, entry: Entry) -> Result<(), AllocError>
    requires shelved { AreShelved shelves.old }
    requires first { (shelf_at shelves.old entry.name).keys ≡ [] }
    ensures shelved { AreShelved shelves.new }
    ensures ok { OnOk result ((q : EntryView)
        → is_shelved shelves.new q ≡ (if is_at (entry_cmp entry) q then true else is_shelved shelves.old q)) }
    ensures err { OnErr result ((q : EntryView) → is_shelved shelves.new q ≡ is_shelved shelves.old q) }
{
    let name = entry.name.text().to_string(alloc)?;
    let shelf = set_of_one(alloc, entry)?;
    shelves.insert(name, shelf)?;
    Ok(())
}

// Puts an entry on the shelf of its name.
fn put(shelves: &mut Shelves, alloc: Global, entry: Entry) -> Result<(), AllocError>
    requires { AreShelved shelves.old }
    ensures shelved { AreShelved shelves.new }
    ensures ok { OnOk result ((q : EntryView)
        → is_shelved shelves.new q ≡ (if is_at (entry_cmp entry) q then true else is_shelved shelves.old q)) }
    ensures err { OnErr result ((q : EntryView) → is_shelved shelves.new q ≡ is_shelved shelves.old q) }
{
    match shelves.get_mut(entry.name.text()) {
        Some(shelf) => {
            shelf.insert(entry)?;
            Ok(())
        }
        None => put_first(shelves, alloc, entry),
    }
}

fn put_copy(shelves: &mut Shelves, alloc: Global, entry: &Entry) -> Result<(), AllocError>
    requires { AreShelved shelves.old }
    ensures shelved { AreShelved shelves.new }
    ensures ok { OnOk result ((q : EntryView)
        → is_shelved shelves.new q ≡ (if is_at (entry_cmp entry.now) q then true else is_shelved shelves.old q)) }
    ensures err { OnErr result ((q : EntryView) → is_shelved shelves.new q ≡ is_shelved shelves.old q) }
{
    let copy = entry.clone()?;
    put(shelves, alloc, copy)
}

// Takes an entry off the shelf of its name.
fn take_off(shelves: &mut Shelves, entry: &Entry)
    requires { AreShelved shelves.old }
    ensures shelved { AreShelved shelves.new }
    ensures left { (q : EntryView) → is_shelved shelves.new q
        ≡ (if is_at (entry_cmp entry.now) q then false else is_shelved shelves.old q) }
{
    if let Some(shelf) = shelves.get_mut(entry.name.text()) {
        shelf.remove(entry);
    }
}

fn is_empty(shelves: &Shelves, name: &str) -> bool
    ensures { result ≡ true → (shelf_at shelves.now name.now).keys ≡ [] }
{
    match shelves.get(name) {
        Some(shelf) => shelf.is_empty(),
        None => false,
    }
}

// Takes away the shelf of a name, if nothing is left on it.
fn clear_away(shelves: &mut Shelves, name: &str)
    requires { AreShelved shelves.old }
    ensures shelved { AreShelved shelves.new }
    ensures same { (q : EntryView) → is_shelved shelves.new q ≡ is_shelved shelves.old q }
{
    if is_empty(shelves, name) {
        shelves.remove(name);
    }
}

// Puts entries on the shelves of their names, where memory runs out only the first of them.
fn put_each(shelves: &mut Shelves, alloc: Global, entries: &[Entry]) -> Result<(), AllocError>
    requires { AreShelved shelves.old }
    ensures shelved { AreShelved shelves.new }
    ensures some { (n : ℕ) × ((q : EntryView)
        → is_shelved shelves.new q ≡ (is_shelved shelves.old q || is_entry_among q (take n entries.now))) }
    ensures ok { OnOk result ((q : EntryView)
        → is_shelved shelves.new q ≡ (is_shelved shelves.old q || is_entry_among q entries.now)) }
{
    for entry in entries {
        put_copy(shelves, alloc, entry)?;
    }
    Ok(())
}

/// Takes entries off the shelves of their names.
pub fn take_each(shelves: &mut Shelves, entries: &[Entry])
    requires { AreShelved shelves.old }
    ensures shelved { AreShelved shelves.new }
    ensures left { (q : EntryView) → is_shelved shelves.new q
        ≡ (is_shelved shelves.old q && not (is_entry_among q entries.now)) }
{
    for entry in entries {
        take_off(shelves, entry);
        clear_away(shelves, entry.name.text());
    }
}

/// Puts entries, which do not stand there yet, on the shelves of their names, or none of them.
pub fn put_all(shelves: &mut Shelves, alloc: Global, entries: &[Entry]) -> Result<(), AllocError>
    requires shelved { AreShelved shelves.old }
    requires apart { (q : EntryView) → is_entry_among q entries.now ≡ true
        → is_shelved shelves.old q ≡ false }
    ensures shelved { AreShelved shelves.new }
    ensures ok { OnOk result ((q : EntryView)
        → is_shelved shelves.new q ≡ (is_shelved shelves.old q || is_entry_among q entries.now)) }
    ensures err { OnErr result ((q : EntryView) → is_shelved shelves.new q ≡ is_shelved shelves.old q) }
{
    match put_each(shelves, alloc, entries) {
        Ok(()) => Ok(()),
        Err(error) => {
            take_each(shelves, entries);
            Err(error)
        }
    }
}
