//! What others can see of a file became another.
#![tactic(auto)]

mod change_kind;
mod doc_attributes;
mod hiding;
mod inside;
mod kept;
mod labelled;
mod laws;
mod line_texts;
mod matching;
mod moved;
mod row_changes;
mod strays;
mod text_parts;
mod tokens;
mod told;

ghost use Rattle.std.specs.Prelude.{◌≡◌, ◌++◌, ◌↔◌, IfOk, IsTrue, OnOk, map, string_bytes};
ghost use Rattle.source_changes.specs.Views.{part_view};
ghost use Rattle.source_rows.specs.Views.{source_view};
ghost use Rattle.source_changes.specs.ChangeViews.{row_change_view, row_part, text_row_view};
ghost use Rattle.source_changes.specs.RowChanges.{row_changes, seen_changes};
ghost use Rattle.source_changes.specs.Moves.{row_moves, standing_rows};
ghost use Rattle.source_changes.specs.Outside.{outside_rows};
ghost use Rattle.source_changes.specs.Changes as spec;
ghost use Rattle.source_changes.specs.Views.{lined_view};

pub use change_kind::{ChangeKind, change_word};
use hir_input::EditionYear;
pub use kept::{Hole, Skeleton};
use list_forms::Form;
pub use moved::moves;
pub use row_changes::{Change, Row, changes, seen_changes};
use rust_items::{Wanted, WantedMetas, read_wanted};
pub use source_rows::Source;
use std::alloc::{AllocError, Global};
pub use strays::{row_around, stray_part};
pub use text_parts::{Part, parts};
pub use tokens::{bodies, rows};
pub use told::file_change;
use told::{Side, side_from};

/// What became of a file in another.
#[derive(Debug, Drop)]
pub struct Compared {
    /// A line or an object for each change of an item or of a member of one.
    pub text: String,
    /// Whether the two are the same: as others see them, or as trees.
    pub is_same: bool,
}

/// The items of a text of an edition, and behind each its members.
fn parts_of(alloc: Global, text: &str, edition: EditionYear) -> Result<Vec<Part>, AllocError>
    ensures { IfOk result (λ v. spec.AreParts edition text.now (map part_view v.items)) }
{
    let wanted = Wanted {
        bodies: false,
        metas: WantedMetas::Conditions,
    };
    let file = read_wanted(alloc, text, wanted, edition)?;
    let parts = parts(alloc, text, edition, &file.places)?;
    Ok(parts)
}

/// The text of a change, from the file in which its row stands.
fn push_between(
    alloc: Global,
    form: Form,
    old: &mut Side<'_>,
    new: &mut Side<'_>,
    change: &Change<'_>,
    out: &mut String,
) -> Result<(), AllocError>
    ensures text { let line = spec.row_text_between form (lined_view old.old) (lined_view new.old)
        (row_change_view change.now) in
        OnOk result (string_bytes out.new ≡ string_bytes out.old ++ line) }
    ensures old { lined_view old.new ≡ lined_view old.old }
    ensures new { lined_view new.new ≡ lined_view new.old }
{
    match change.kind {
        ChangeKind::Removed => old.push(alloc, form, change, out),
        ChangeKind::Added | ChangeKind::Changed => new.push(alloc, form, change, out),
    }
}

fn lines(
    alloc: Global,
    form: Form,
    old: Source<'_>,
    new: Source<'_>,
    changes: &[Change<'_>],
) -> Result<String, AllocError>
    ensures { let lines = spec.row_texts form (source_view old.entry) (source_view new.entry)
        (map row_change_view changes.now) in
        IfOk result (λ text. string_bytes text ≡ lines) }
{
    let (mut olds, mut news) = (side_from(old), side_from(new));
    let mut out = String::new(alloc);
    for change in changes {
        push_between(alloc, form, &mut olds, &mut news, change, &mut out)?;
    }
    Ok(out)
}

/// Whether others can see the same of two texts.
fn is_same(
    alloc: Global,
    old: &str,
    olds: &[Part],
    new: &str,
    news: &[Part],
    has_docs: bool,
) -> Result<bool, AllocError>
    ensures { let before = spec.seen_texts has_docs old.now (map part_view olds.now) in
        let after = spec.seen_texts has_docs new.now (map part_view news.now) in
        IfOk result (λ same. IsTrue same ↔ (before ≡ after)) }
{
    let (old_holes, new_holes) = (bodies(alloc, olds)?, bodies(alloc, news)?);
    let before = Skeleton {
        text: old,
        holes: &old_holes,
        has_docs,
    };
    let after = Skeleton {
        text: new,
        holes: &new_holes,
        has_docs,
    };
    Ok(before.is_same(after))
}

/// Two files of an edition and their parts.
#[derive(Clone, Copy)]
struct Pair<'a> {
    old: Source<'a>,
    new: Source<'a>,
    olds: &'a [Part],
    news: &'a [Part],
    edition: EditionYear,
    /// Whether only what is seen outside of its module counts.
    is_public: bool,
    has_docs: bool,
    form: Form,
}

/// The lines of what became of what stands in none of the parts.
fn outside_lines(alloc: Global, pair: Pair<'_>) -> Result<String, AllocError>
    ensures { let p = pair.entry in
        let outside = outside_rows p.is_public p.has_docs p.edition in
        let before = outside p.old.text.now (map part_view p.olds.now) in
        let after = outside p.new.text.now (map part_view p.news.now) in
        let lines = spec.row_texts p.form (source_view p.old) (source_view p.new) (row_changes before after) in
        IfOk result (λ text. string_bytes text ≡ lines) }
{
    let before = stray_part(
        alloc,
        pair.old.text,
        pair.edition,
        pair.is_public,
        pair.olds,
    )?;
    let after = stray_part(
        alloc,
        pair.new.text,
        pair.edition,
        pair.is_public,
        pair.news,
    )?;
    let old_rows = row_around(alloc, pair.old.text, &before, pair.olds, pair.has_docs)?;
    let new_rows = row_around(alloc, pair.new.text, &after, pair.news, pair.has_docs)?;
    let changes = changes(alloc, &old_rows, &new_rows)?;
    lines(alloc, pair.form, pair.old, pair.new, &changes)
}

fn counted_changes<'r>(
    alloc: Global,
    is_public: bool,
    old: &[Row<'r>],
    new: &[Row<'r>],
) -> Result<Vec<Change<'r>>, AllocError>
    ensures { let all = row_changes (map text_row_view old.now) (map text_row_view new.now) in
        IfOk result (λ v. map row_change_view v.items ≡ seen_changes is_public all) }
{
    let changes = changes(alloc, old, new)?;
    seen_changes(alloc, is_public, changes)
}

fn counted_moves<'r>(
    alloc: Global,
    is_public: bool,
    old: &[Row<'r>],
    new: &[Row<'r>],
) -> Result<Vec<Change<'r>>, AllocError>
    ensures { let olds = standing_rows (map row_part old.now) (map text_row_view old.now) in
        let news = standing_rows (map row_part new.now) (map text_row_view new.now) in
        IfOk result
        (λ v. map row_change_view v.items ≡ seen_changes is_public (row_moves olds news)) }
{
    let moves = moves(alloc, old, new)?;
    seen_changes(alloc, is_public, moves)
}

/// The lines of what became of the parts of a file in another, as far as they count, or else of what moved from a part
/// to another of its label, or else of what stands in none.
fn lines_between(alloc: Global, pair: Pair<'_>) -> Result<String, AllocError>
    ensures { let p = pair.entry in
        let lines = spec.lines_between p.edition p.is_public p.has_docs p.form (source_view p.old)
        (source_view p.new) (map part_view p.olds.now) (map part_view p.news.now) in
        IfOk result (λ text. string_bytes text ≡ lines) }
{
    let old_rows = rows(alloc, pair.old.text, pair.olds, pair.has_docs)?;
    let new_rows = rows(alloc, pair.new.text, pair.news, pair.has_docs)?;
    let changes = counted_changes(alloc, pair.is_public, &old_rows, &new_rows)?;
    if !changes.is_empty() {
        return lines(alloc, pair.form, pair.old, pair.new, &changes);
    }
    let moves = counted_moves(alloc, pair.is_public, &old_rows, &new_rows)?;
    if !moves.is_empty() {
        return lines(alloc, pair.form, pair.old, pair.new, &moves);
    }
    outside_lines(alloc, pair)
}

/// The same, but no line where others see the same of both.
fn text_of(alloc: Global, is_same: bool, pair: Pair<'_>) -> Result<String, AllocError>
    ensures { let p = pair.entry in
        let lines = spec.compared_lines p.edition is_same p.is_public p.has_docs p.form (source_view p.old)
        (source_view p.new) (map part_view p.olds.now) (map part_view p.news.now) in
        IfOk result (λ text. string_bytes text ≡ lines) }
{
    if is_same {
        return Ok(String::new(alloc));
    }
    lines_between(alloc, pair)
}

/// The lines of what became of a file of an edition in another, whatever makes the two differ: those of `compare` where
/// others see a difference, and else none.
///
/// # Errors
///
/// Only if memory runs out.
pub fn change_lines(
    alloc: Global,
    old: Source<'_>,
    new: Source<'_>,
    edition: EditionYear,
    has_docs: bool,
    form: Form,
) -> Result<String, AllocError>
    ensures { let are_lines = spec.AreLinesBetween edition has_docs form (source_view old.entry)
        (source_view new.entry) in
        IfOk result (λ text. are_lines (string_bytes text)) }
{
    let before = parts_of(alloc, old.text, edition)?;
    let after = parts_of(alloc, new.text, edition)?;
    let pair = Pair {
        old,
        new,
        olds: &before,
        news: &after,
        edition,
        is_public: false,
        has_docs,
        form,
    };
    let text = lines_between(alloc, pair)?;
    Ok(text)
}

/// Compares what others can see of two files of an edition: every token but those between the braces of functions and
/// comments, and documentation only where that is asked.
///
/// It tells in a line what was removed of the old file's items and of their members, and then what was added or
/// changed. Where nothing of that became another, lines tell what moved from an item to another of the same kind and
/// path: it was removed and added. Where nothing did, a line tells what stands in none of these; without one the files
/// differ in the order of items or in the attributes of the file.
///
/// # Errors
///
/// Only if memory runs out.
pub fn compare(
    alloc: Global,
    old: Source<'_>,
    new: Source<'_>,
    edition: EditionYear,
    has_docs: bool,
    form: Form,
) -> Result<Compared, AllocError>
    ensures { IfOk result (spec.IsCompared edition has_docs form (source_view old.entry)
        (source_view new.entry)) }
{
    let olds = parts_of(alloc, old.text, edition)?;
    let news = parts_of(alloc, new.text, edition)?;
    let is_same = is_same(alloc, old.text, &olds, new.text, &news, has_docs)?;
    let pair = Pair {
        old,
        new,
        olds: &olds,
        news: &news,
        edition,
        is_public: false,
        has_docs,
        form,
    };
    let text = text_of(alloc, is_same, pair)?;
    Ok(Compared { text, is_same })
}

/// The same of what is public: what is seen outside of its module, by what is written of it, in one of the two. An item
/// or a member is not that can have a visibility, and has none or one that ends at its module; variants and what stands
/// in a trait are as their item. (`Hiding` says it all.)
///
/// Nothing is told of the order of items. The attributes of the file stand outside of all items.
///
/// # Errors
///
/// Only if memory runs out.
pub fn compare_public(
    alloc: Global,
    old: Source<'_>,
    new: Source<'_>,
    edition: EditionYear,
    has_docs: bool,
    form: Form,
) -> Result<Compared, AllocError>
    ensures { IfOk result (spec.IsComparedInPublic edition has_docs form (source_view old.entry)
        (source_view new.entry)) }
{
    let old_parts = parts_of(alloc, old.text, edition)?;
    let new_parts = parts_of(alloc, new.text, edition)?;
    let pair = Pair {
        old,
        new,
        olds: &old_parts,
        news: &new_parts,
        edition,
        is_public: true,
        has_docs,
        form,
    };
    let text = lines_between(alloc, pair)?;
    let is_empty = text.as_str().is_empty();
    Ok(Compared {
        text,
        is_same: is_empty,
    })
}
