//! Entries that a table does not declare any more.
ghost use Rattle.std.specs.Prelude.{◌≡◌, ◌++◌, map, nat_eq, false, None, IfOk, OnOk, flat_map};
ghost use Rattle.std.specs.Cmp.Lexicographic.{pointwise};
ghost use Rattle.std.specs.Option.{option_map_or};
ghost use Rattle.item_tree.specs.Walk.{of_id};
ghost use Rattle.tree_walk.specs.Declarations.{node_name};
ghost use Rattle.decl_index.specs.Inner.{gone_at, gone_by, is_declared};

use crate::by_tree::{Trees, entries_of};
use crate::entry::Entry;
use hir_input::{Crate, Name};
use item_tree::{ItemTree, ModItemId};
use item_tree_db::{ChangedSince, Place, Sources};
use std::alloc::{AllocError, Global};
use std::collections::BTreeSet;
use tree_walk::name_at;

// Whether the item of an id has this name.
fn has_name(tree: &ItemTree, id: ModItemId, name: &Name) -> bool
    ensures { result ≡ option_map_or (pointwise nat_eq name.now)
        (of_id tree.now None node_name id) false }
{
    if !tree.contains(id) {
        return false;
    }
    match name_at(tree, id) {
        Some(own) => name == own,
        None => false,
    }
}

// Whether the table declares what an entry tells.
fn is_declared(sources: &Sources, entry: &Entry) -> bool
    ensures { result ≡ is_declared sources.now entry.now }
{
    if !sources.knows(entry.krate) {
        return false;
    }
    has_name(
        sources.tree(entry.place, entry.krate),
        entry.id,
        &entry.name,
    )
}

fn push_gone(sources: &Sources, entry: &Entry, gone: &mut Vec<Entry>) -> Result<(), AllocError>
    ensures { OnOk result (gone.new.items ≡ gone.old.items ++ gone_by sources.now entry.now) }
{
    if is_declared(sources, entry) {
        return Ok(());
    }
    gone.push(entry.clone()?)?;
    Ok(())
}

/// Those of some entries.
pub fn gone_of(
    alloc: Global,
    sources: &Sources,
    entries: &[&Entry],
) -> Result<Vec<Entry>, AllocError>
    ensures { let all = map (λ e. e.now) entries.now in
        IfOk result (λ gone. gone.items ≡ flat_map (gone_by sources.now) all) }
{
    let mut gone = Vec::new(alloc);
    for entry in entries {
        push_gone(sources, *entry, &mut gone)?;
    }
    Ok(gone)
}

fn push_set(
    sources: &Sources,
    entries: &BTreeSet<Entry>,
    gone: &mut Vec<Entry>,
) -> Result<(), AllocError>
    ensures { OnOk result (gone.new.items ≡ gone.old.items
        ++ flat_map (gone_by sources.now) entries.now.keys) }
{
    for entry in entries {
        push_gone(sources, entry, gone)?;
    }
    Ok(())
}

fn push_tree(
    sources: &Sources,
    trees: &Trees,
    place: Place,
    krate: Crate,
    gone: &mut Vec<Entry>,
) -> Result<(), AllocError>
    ensures { OnOk result (gone.new.items ≡ gone.old.items
        ++ gone_at sources.now trees.now place krate) }
{
    match entries_of(trees, place, krate) {
        Some(entries) => push_set(sources, entries, gone),
        None => Ok(()),
    }
}

/// Those of trees that changed.
pub fn gone_among(
    alloc: Global,
    sources: &Sources,
    trees: &Trees,
    changes: ChangedSince<'_>,
) -> Result<Vec<Entry>, AllocError>
    ensures { IfOk result (λ gone. gone.items
        ≡ flat_map (λ c. gone_at sources.now trees.now c.0 c.1) changes.entry) }
{
    let mut gone = Vec::new(alloc);
    for (place, krate, _) in changes {
        push_tree(sources, trees, place, krate, &mut gone)?;
    }
    Ok(gone)
}
