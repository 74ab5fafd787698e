//! What lists read, also of damaged texts.

ghost use Rattle.std.specs.Prelude.{◌≡◌, ◌≤◌, ◌<◌, ◌^◌, Some, length, map, option_map, IfOk, IfErr, OnOk};
ghost use Rattle.rust_items.specs.SourceFiles.{IsClippedFile, file_view};
ghost use Rattle.source_rows.specs.Listed.{told_place, told_item};
ghost use Rattle.source_rows.specs.ListedViews.{closers_view};
ghost use Rattle.source_rows.specs.ListedFiles.{HasFileIds, HasTextOf, IsListedClipped, IsUnlisted, closers_in};
ghost use Rattle.source_rows.specs.ListedFiles.{told_file};

use crate::mended::{told_item, told_place};
use crate::mended_file::MendedFile;
use crate::read_texts::{ReadError, read_text};
use hir_input::EditionYear;
use rust_items::{ItemPlace, Problem, SourceFile, Wanted};
use rust_mended::{Mended, mend};
use std::alloc::{AllocError, Global};

/// What lists read of a text, with the places and the problems of the text as it is.
#[derive(Drop)]
pub struct ListedFile {
    pub file: SourceFile,
    /// The mended text, if that was read.
    pub mended: Option<MendedFile>,
}

/// Where the items of a mended text stand in the text itself.
fn told_places(alloc: Global, mended: &MendedFile) -> Result<Vec<ItemPlace>, AllocError>
    ensures { IfOk result (λ v. v.items
        ≡ map (told_item (Some (closers_view mended.now))) mended.now.items.items) }
{
    let mut told = Vec::with_capacity(alloc, mended.items.len())?;
    for place in &mended.items {
        told.push(told_item(Some(mended), *place))?;
    }
    Ok(told)
}

fn told_use_trees(
    alloc: Global,
    use_trees: &[usize],
    mended: &MendedFile,
) -> Result<Vec<usize>, AllocError>
    ensures { IfOk result (λ v. v.items
        ≡ map (told_place (Some (closers_view mended.now))) use_trees.now) }
{
    let mut told = Vec::with_capacity(alloc, use_trees.len())?;
    for at in use_trees {
        told.push(told_place(Some(mended), *at))?;
    }
    Ok(told)
}

/// What was read of a mended text, with the places of the text itself and its problems.
fn told_listed(
    alloc: Global,
    read: SourceFile,
    problems: Vec<Problem>,
    mended: Mended,
) -> Result<ListedFile, AllocError>
    requires ids { HasFileIds read }
    ensures file { IfOk result (λ x. file_view x.file
        ≡ told_file (closers_in x.mended) problems.items (file_view read)) }
    ensures mended { IfOk result (λ x. option_map (λ m. m.mended) x.mended ≡ Some mended) }
    ensures items { IfOk result (λ x. option_map (λ m. m.items.items) x.mended ≡ Some read.places.items) }
{
    let mended = MendedFile {
        mended,
        items: read.places,
    };
    let places = told_places(alloc, &mended)?;
    let use_trees = told_use_trees(alloc, &read.use_trees, &mended)?;
    let file = SourceFile {
        syntax: read.syntax,
        places,
        use_trees,
        problems,
    };
    Ok(ListedFile {
        file,
        mended: Some(mended),
    })
}

/// What is read of the mended text of a text that has problems, if it is another, or else what was read.
fn mended_file(
    alloc: Global,
    text: &str,
    wanted: Wanted,
    edition: EditionYear,
    own: SourceFile,
) -> Result<ListedFile, ReadError>
    requires read { IsClippedFile wanted edition text.now (file_view own) }
    requires damaged { 0 < length own.problems.items }
    requires ids { HasFileIds own }
    requires short { length text.now ≤ 2 ^ 32 }
    ensures file { IfOk result
        (λ x. IsListedClipped wanted edition text.now (closers_in x.mended) (file_view x.file)) }
    ensures text { IfOk result (λ x. HasTextOf text.now x.mended) }
    ensures ids { IfOk result (λ x. HasFileIds x.file) }
    ensures refused { IfErr result (IsUnlisted text.now) }
{
    let Some(mended) = mend(alloc, text)? else {
        return Ok(ListedFile {
            file: own,
            mended: None,
        });
    };
    let read = read_text(alloc, &mended.text, wanted, edition)?;
    let listed = told_listed(alloc, read, own.problems, mended)?;
    Ok(listed)
}

/// Reads what is wanted of a text of an edition for lists: where the reader tells problems, of its mended text.
///
/// # Errors
///
/// `TooLong` where the text or its mended one has more than 2^32 bytes, and `OutOfMemory`.
pub fn read_listed(
    alloc: Global,
    text: &str,
    wanted: Wanted,
    edition: EditionYear,
) -> Result<ListedFile, ReadError>
    ensures file { IfOk result
        (λ x. IsListedClipped wanted edition text.now (closers_in x.mended) (file_view x.file)) }
    ensures text { IfOk result (λ x. HasTextOf text.now x.mended) }
    ensures ids { IfOk result (λ x. HasFileIds x.file) }
    ensures short { OnOk result (length text.now ≤ 2 ^ 32) }
    ensures refused { IfErr result (IsUnlisted text.now) }
{
    let own = read_text(alloc, text, wanted, edition)?;
    if own.problems.is_empty() {
        return Ok(ListedFile {
            file: own,
            mended: None,
        });
    }
    mended_file(alloc, text, wanted, edition, own)
}
