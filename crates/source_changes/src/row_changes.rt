//! What of some rows became another.

ghost use Rattle.std.specs.Prelude.{◌≡◌, ◌++◌, true, map, IfOk, IsTrue, OnOk, flat_map};
ghost use Rattle.source_changes.specs.RowChanges as spec;
ghost use Rattle.source_changes.specs.Inner.{found_row_change, row_match};
ghost use Rattle.source_changes.specs.ChangeViews.{row_change_view, skeleton_view, text_row_view};
ghost use Rattle.source_rows.specs.Labels.{text_at};
ghost use Rattle.source_changes.specs.Skeletons.{skeleton};

use crate::change_kind::ChangeKind;
use crate::kept::{Hole, Skeleton};
use crate::labelled::label_rows;
use crate::matching::{Keyed, Match, match_keyed};
use crate::text_parts::Part;
use crate::tokens::own_holes;
use source_rows::text_at;
use std::alloc::{AllocError, Global};

/// A part of a text that is told by itself.
#[derive(Clone, Copy, Debug)]
pub struct Row<'a> {
    pub part: &'a Part,
    /// The parts that come behind it.
    pub behind: &'a [Part],
    /// The whole text.
    pub text: &'a str,
    /// Whether documentation counts.
    pub has_docs: bool,
}

impl<'a> Row<'a> {
    /// What tells its own tokens, where the others stand in these holes of its text.
    fn skeleton(self, holes: &'a [Hole]) -> Skeleton<'a>
        ensures { let r = self.entry in
            skeleton_view result ≡ skeleton r.has_docs holes.now (text_at r.text.now r.part.now.range) }
    {
        Skeleton {
            text: text_at(self.text, self.part.range),
            holes,
            has_docs: self.has_docs,
        }
    }
}

/// Whether two rows have the same tokens.
fn is_same(alloc: Global, old: Row<'_>, new: Row<'_>) -> Result<bool, AllocError>
    ensures { let same = spec.same_texts (text_row_view old.entry).own (text_row_view new.entry).own in
        IfOk result (λ is_same. is_same ≡ same) }
{
    let old_holes = own_holes(alloc, old.part, old.behind)?;
    let new_holes = own_holes(alloc, new.part, new.behind)?;
    Ok(old.skeleton(&old_holes).is_same(new.skeleton(&new_holes)))
}

/// A change of a row.
#[derive(Clone, Copy, Debug)]
pub struct Change<'r> {
    pub kind: ChangeKind,
    pub label: &'r str,
    /// Its byte place in the new text, or in the old one where it was removed.
    pub at: usize,
    /// Whether it is seen in its module alone, in each text that has it.
    pub is_hidden: bool,
}

fn row_change<'r>(kind: ChangeKind, is_hidden: bool, row: Row<'r>) -> Change<'r>
    ensures { row_change_view result ≡ spec.row_change kind is_hidden (text_row_view row.entry) }
{
    Change {
        kind,
        label: &row.part.label,
        at: row.part.at,
        is_hidden,
    }
}

fn in_one<'r>(kind: ChangeKind, row: Row<'r>) -> Change<'r>
    ensures { let r = text_row_view row.entry in
        row_change_view result ≡ spec.row_change kind r.is_hidden r }
{
    row_change(kind, row.part.is_hidden, row)
}

/// What became of a row; none where both texts have the same tokens of it.
fn change_of<'r, K>(
    alloc: Global,
    found: &Match<&Keyed<K, Row<'r>>>,
) -> Result<Option<Change<'r>>, AllocError>
    ensures { IfOk result
        (λ change. found_row_change change ≡ spec.row_change_of (row_match found.now)) }
{
    match *found {
        Match::Gone(old) => Ok(Some(in_one(ChangeKind::Removed, old.item))),
        Match::Came(new) => Ok(Some(in_one(ChangeKind::Added, new.item))),
        Match::Stays(old, new) => {
            if is_same(alloc, old.item, new.item)? {
                return Ok(None);
            }
            let is_hidden = old.item.part.is_hidden && new.item.part.is_hidden;
            Ok(Some(row_change(ChangeKind::Changed, is_hidden, new.item)))
        }
    }
}

fn push_change<'r>(
    change: Option<Change<'r>>,
    changes: &mut Vec<Change<'r>>,
) -> Result<(), AllocError>
    ensures { OnOk result (map row_change_view changes.new.items
        ≡ map row_change_view changes.old.items ++ found_row_change change.entry) }
{
    let Some(change) = change else {
        return Ok(());
    };
    changes.push(change)?;
    Ok(())
}

/// What became of rows that are the same, or in one text alone.
pub(crate) fn changes_of<'r, K>(
    alloc: Global,
    found: &[Match<&Keyed<K, Row<'r>>>],
) -> Result<Vec<Change<'r>>, AllocError>
    ensures { IfOk result (λ v. map row_change_view v.items
        ≡ flat_map spec.row_change_of (map row_match found.now)) }
{
    let mut changes = Vec::new(alloc);
    for one in found {
        push_change(change_of(alloc, one)?, &mut changes)?;
    }
    Ok(changes)
}

/// What became of the rows of a text in another: first those that were removed, in the order of the old text, and then
/// those that were added or changed, in the order of the new one.
///
/// Two rows are the same row where both are the n-th of their label. Texts that differ in the order of their rows alone
/// may have no changes.
///
/// # Errors
///
/// Only if memory runs out.
pub fn changes<'r>(
    alloc: Global,
    old: &[Row<'r>],
    new: &[Row<'r>],
) -> Result<Vec<Change<'r>>, AllocError>
    ensures { IfOk result (λ v. map row_change_view v.items
        ≡ spec.row_changes (map text_row_view old.now) (map text_row_view new.now)) }
{
    let olds = label_rows(alloc, old)?;
    let news = label_rows(alloc, new)?;
    let found = match_keyed(alloc, &olds, &news)?;
    changes_of(alloc, &found)
}

fn seen_ones<'r>(alloc: Global, changes: &[Change<'r>]) -> Result<Vec<Change<'r>>, AllocError>
    ensures { IfOk result (λ v. map row_change_view v.items
        ≡ spec.seen_changes true (map row_change_view changes.now)) }
{
    let mut seen = Vec::new(alloc);
    for change in changes {
        if !change.is_hidden {
            seen.push(*change)?;
        }
    }
    Ok(seen)
}

/// All changes, or where only what is public counts those of what is seen outside of its module in one of the texts.
///
/// # Errors
///
/// Only if memory runs out.
pub fn seen_changes<'r>(
    alloc: Global,
    is_public: bool,
    changes: Vec<Change<'r>>,
) -> Result<Vec<Change<'r>>, AllocError>
    ensures { IfOk result (λ v. map row_change_view v.items
        ≡ spec.seen_changes is_public (map row_change_view changes.entry.items)) }
{
    if !is_public {
        return Ok(changes);
    }
    seen_ones(alloc, &changes)
}
