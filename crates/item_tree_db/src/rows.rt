//! The trees of one place, one for each crate, with their change numbers.
ghost use Rattle.std.specs.Prelude.{◌≡◌, IfErr, IfOk, OnOk, length, map, Some, option_map, option_copied};
ghost use Rattle.item_tree.specs.CrateView.{crate_view};
ghost use Rattle.item_tree_db.specs.Refusal.{TreeFits, TreePasses, UnlessMemory};
ghost use Rattle.item_tree_db.specs.Inner.Sizes.{CratesFit, CratesPass};
ghost use Rattle.item_tree_db.specs.Inner.Recent.{newest_number};
ghost use Rattle.item_tree_db.specs.Inner.Settled.{settle_all, settled_row, empty_row, clear_all, fresh_row, brought};
ghost use Rattle.item_tree_db.specs.Inner.Source.{source_place, source_syntax};
ghost use Rattle.item_tree_db.specs.State.{is_root_of, kept_at};

use crate::place::Place;
use crate::source::Source;
use hir_input::Name;
use item_tree::{CrateData, ItemTree, LowerError, lower_block, lower_syntax};
use std::alloc::Global;
use std::mem;

/// A crate's tree of a place, and the number of the last edit at which it became another.
#[derive(Drop)]
pub struct Row {
    pub tree: ItemTree,
    pub changed: u64,
}

/// The greatest change number of rows.
pub fn newest_number(rows: &[Row]) -> u64
    ensures { result ≡ newest_number rows.now }
{
    let mut greatest = 0;
    for row in rows {
        greatest = greatest.max(row.changed);
    }
    greatest
}

/// Takes the new tree, with the number, unless it is equal to the old one.
pub fn settle_row(row: &mut Row, fresh: &mut Row, number: u64)
    ensures { row.new ≡ settled_row number row.old fresh.old }
{
    if row.tree != fresh.tree {
        mem::swap(&mut row.tree, &mut fresh.tree);
        row.changed = number;
    }
}

/// Replaces each tree that is not equal to the new one. An equal tree stays, with its number.
pub fn settle(rows: &mut [Row], mut fresh: Vec<Row>, number: u64)
    requires { length fresh.items ≡ length rows.old }
    ensures { rows.new ≡ settle_all number rows.old fresh.items }
{
    for i in 0..rows.len() {
        settle_row(&mut rows[i], &mut fresh[i], number);
    }
}

/// Replaces each tree that is not empty by the empty one. Takes no memory.
pub fn clear(rows: &mut [Row], alloc: Global, number: u64)
    ensures { rows.new ≡ clear_all number rows.old }
{
    for row in rows.iter_mut() {
        let mut none = Row {
            tree: ItemTree::empty(alloc),
            changed: number,
        };
        settle_row(row, &mut none, number);
    }
}

/// Makes new rows those of a place that is set for the first time: its trees were empty before. Takes no memory.
pub fn settle_first(rows: &mut [Row], alloc: Global, start: u64, number: u64)
    ensures { rows.new ≡ map (settled_row number (empty_row start)) rows.old }
{
    for row in rows.iter_mut() {
        let mut first = Row {
            tree: ItemTree::empty(alloc),
            changed: start,
        };
        settle_row(&mut first, row, number);
        mem::swap(&mut first, row);
    }
}

// Whether a place is a crate's root file.
fn is_root(krate: &CrateData, place: Place) -> bool
    ensures { result ≡ is_root_of (crate_view krate.now) place }
{
    match place {
        Place::File(file) => file.0 == krate.root.0,
        Place::Block(_) => false,
    }
}

// What is set at a place, lowered for a crate under its own options.
fn lower_source(
    alloc: Global,
    krate: &CrateData,
    skipped: &[Name],
    place: Place,
    source: &Source,
) -> Result<ItemTree, LowerError>
    ensures tree { let kept = kept_at skipped.now place (source_syntax source.now)
        (crate_view krate.now) in
        IfOk result (λ tree. tree ≡ kept) }
    ensures fits { OnOk result
        (TreeFits skipped.now place (Some (crate_view krate.now))
        (Some (source_syntax source.now))) }
    ensures refused { let krate = Some (crate_view krate.now) in
        IfErr result (TreePasses skipped.now place krate (Some (source_syntax source.now))) }
{
    match source {
        Source::File { syntax, .. } => {
            lower_syntax(alloc, syntax, is_root(krate, place), krate, skipped)
        }
        Source::Block { syntax, .. } => lower_block(alloc, syntax, krate, skipped),
    }
}

/// What is set at a place, if anything is, lowered for one crate: the empty tree where nothing is.
pub fn lower_row(
    alloc: Global,
    krate: &CrateData,
    skipped: &[Name],
    place: Place,
    source: Option<&Source>,
    number: u64,
) -> Result<Row, LowerError>
    ensures row { let syntax = option_map source_syntax (option_copied source.entry) in
        IfOk result (λ row. row ≡ fresh_row number skipped.now place (Some (crate_view krate.now)) syntax) }
    ensures fits { let syntax = option_map source_syntax (option_copied source.entry) in
        OnOk result (TreeFits skipped.now place (Some (crate_view krate.now)) syntax) }
    ensures refused { let syntax = option_map source_syntax (option_copied source.entry) in
        IfErr result (TreePasses skipped.now place (Some (crate_view krate.now)) syntax) }
{
    match source {
        Some(source) => {
            let tree = lower_source(alloc, krate, skipped, place, source)?;
            Ok(Row {
                tree,
                changed: number,
            })
        }
        None => Ok(Row {
            tree: ItemTree::empty(alloc),
            changed: number,
        }),
    }
}

/// What is set at a place, lowered for every crate.
pub fn lower_all(
    alloc: Global,
    crates: &[CrateData],
    skipped: &[Name],
    source: &Source,
    number: u64,
) -> Result<Vec<Row>, LowerError>
    ensures rows { let fresh = brought number skipped.now (source_place source.now)
        (source_syntax source.now) in
        IfOk result (λ rows. rows.items ≡ map (λ krate. fresh (crate_view krate)) crates.now) }
    ensures fits { let crates = map crate_view crates.now in
        OnOk result (CratesFit crates skipped.now (source_place source.now) (source_syntax source.now)) }
    ensures refused { let crates = map crate_view crates.now in
        IfErr result (UnlessMemory (CratesPass crates skipped.now (source_place source.now)
        (source_syntax source.now))) }
{
    let place = source.place();
    let mut rows = Vec::with_capacity(alloc, crates.len())?;
    for krate in crates {
        let row = lower_row(alloc, krate, skipped, place, Some(source), number)?;
        rows.push(row)?;
    }
    Ok(rows)
}
