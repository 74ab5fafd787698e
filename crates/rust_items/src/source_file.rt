//! Source files.

ghost use Rattle.std.specs.Prelude.{◌≡◌, ◌≢◌, ◌≤◌, ◌^◌, [], true, length, AllPairs, IfOk, OnOk, map};
ghost use Rattle.hir_input.specs.Syntax.{item_view, items_of, syntax_view};
ghost use Rattle.rust_leaves.specs.Clipped.{with_value};
ghost use Rattle.rust_ids.specs.Ids.{AreIds};
ghost use Rattle.rust_items.specs.Clipped.{clipped_items};
ghost use Rattle.rust_items.specs.Found.{Finds, log_view};
ghost use Rattle.rust_items.specs.Items as found;
ghost use Rattle.rust_items.specs.LineEnds.{moved_span, place_by, place_in, with_feeds};
ghost use Rattle.rust_items.specs.Places.{ArePlaces, IsWritten};
ghost use Rattle.rust_items.specs.SourceFiles as spec;
ghost use Rattle.rust_items.specs.Views.{reading_file};

use crate::ids::numbered_items;
use crate::items::{MOST_DEPTH, items};
use crate::line_ends::{LineEnds, has_return, with_feeds};
use crate::log::{ItemSpan, Log, Problem, ProblemKind};
use hir_input::ast::{Item, Syntax};
use hir_input::{EditionYear, FileAstId, Meta};
use rust_cursor::Cursor;
use rust_ids::{Node, assign};
use rust_leaves::{Wanted, WantedMetas};
use rust_metas::kept_inner_attributes;
use rust_paths::TextRange;
use std::alloc::{AllocError, Global};

/// Where an item stands: its id, its bytes with its attributes, and those of its name: of an extern crate that of the
/// name or the `_` behind its `as`.
#[derive(Clone, Copy, Debug, PartialEq, Eq)]
pub struct ItemPlace {
    pub id: FileAstId,
    pub range: TextRange,
    pub name: Option<TextRange>,
    /// The braces that the item ends with, from their `{` up to behind their `}`: those of a function, an impl, a
    /// trait, an enum, a union, a struct with fields in braces, a macro or a macro call. A module, an extern block, a
    /// use and what ends with a semicolon have none, nor has an item whose braces are not closed.
    pub body: Option<TextRange>,
}

/// What was read of a text.
#[derive(Debug, Drop)]
pub struct SourceFile {
    pub syntax: Syntax,
    /// The places of the items, in preorder.
    pub places: Vec<ItemPlace>,
    /// The first bytes of the use trees of the uses, each before those in it; those of a use stand in its range. A tree
    /// whose path can not be read has none, nor has what stands in its list. So they are in the order of the numbers
    /// that the imports of a use have for its trees.
    pub use_trees: Vec<usize>,
    /// What is wrong with the text, in order.
    pub problems: Vec<Problem>,
}

/// The places of items with these ids, in the text as it is.
#[tactic(auto, using(crate::proofs::Steps::places_none, crate::proofs::Steps::places_over))]
pub(crate) fn places(
    alloc: Global,
    ids: &[FileAstId],
    spans: &[ItemSpan],
    ends: &LineEnds,
) -> Result<Vec<ItemPlace>, AllocError>
    ensures { IfOk result (λ v. v.items
        ≡ spec.places ids.now (map (moved_span (place_by ends.now.len ends.now.returns.items)) spans.now)) }
{
    let mut places = Vec::with_capacity(alloc, ids.len())?;
    let mut left = ids;
    let mut unplaced = spans;
    while let [id, more @ ..] = left {
        let [span, rest @ ..] = unplaced else {
            return Ok(places);
        };
        let span = ends.span(*span);
        places.push(ItemPlace {
            id: *id,
            range: span.range,
            name: span.name,
            body: span.body,
        })?;
        left = more;
        unplaced = rest;
    }
    Ok(places)
}

/// The ids of rows. The rows are let go, so that they take no memory while the places are made.
pub(crate) fn ids_of(alloc: Global, rows: Vec<Node<'_>>) -> Result<Vec<FileAstId>, AllocError>
    ensures { IfOk result (λ ids. AreIds rows.entry.items ids.items) }
{
    assign(alloc, &rows)
}

/// What was read of a text, before its items are a syntax.
#[derive(Drop)]
pub(crate) struct Reading {
    pub attrs: Vec<Meta>,
    pub items: Vec<Item>,
    pub places: Vec<ItemPlace>,
    pub use_trees: Vec<usize>,
    pub problems: Vec<Problem>,
}

/// The items of a text, behind its inner attributes.
#[tactic(auto, using(crate::proofs::ClippedItems::finding_clipped))]
fn top_items<'t>(
    alloc: Global,
    cursor: &mut Cursor<'t>,
    wanted: Wanted,
    log: &mut Log<'t>,
) -> Result<Vec<Item>, AllocError>
    ensures { Finds (λ v. map item_view v.items)
        (with_value (clipped_items wanted)
        (found.items true 128 (log_view log.old) cursor.old)) result (log_view log.new) cursor.new }
{
    items(alloc, cursor, wanted, true, MOST_DEPTH, log)
}

/// What is read of a text of an edition with line feeds alone.
#[tactic(auto, unfolding(crate::specs::SourceFiles::found_in, rust_leaves::specs::Clipped::with_value), using(crate::proofs::Numbering::with_ids_list, crate::proofs::BareFiles::is_clipped),)]
fn reading_of(
    alloc: Global,
    text: &str,
    wanted: Wanted,
    edition: EditionYear,
    ends: &LineEnds,
) -> Result<Reading, AllocError>
    ensures { IfOk result (λ read. spec.IsClipped wanted edition text.now
        (place_by ends.now.len ends.now.returns.items) (reading_file read)) }
{
    let mut cursor = Cursor::new(text, edition);
    let attrs = kept_inner_attributes(alloc, &mut cursor, wanted.metas)?;
    let mut log = Log::new(alloc);
    let items = top_items(alloc, &mut cursor, wanted, &mut log)?;
    log.push_problem_at(ProblemKind::Unterminated, cursor.unended_token())?;
    let ids = ids_of(alloc, log.rows)?;
    let places = places(alloc, &ids, &log.spans, ends)?;
    let use_trees = ends.places(alloc, &log.use_trees)?;
    let problems = ends.problems(alloc, &log.problems)?;
    let items = numbered_items(items, &ids);
    Ok(Reading {
        attrs,
        items,
        places,
        use_trees,
        problems,
    })
}

/// What is read of a text, whichever line ends it has.
fn read_text(
    alloc: Global,
    text: &str,
    wanted: Wanted,
    edition: EditionYear,
) -> Result<Reading, AllocError>
    ensures { IfOk result (λ read. spec.IsClippedFile wanted edition text.now (reading_file read)) }
{
    if !has_return(text) {
        let ends = LineEnds::none(alloc, text);
        return reading_of(alloc, text, wanted, edition, &ends);
    }
    let (feeds, ends) = with_feeds(alloc, text)?;
    reading_of(alloc, &feeds, wanted, edition, &ends)
}

fn file_of(reading: Reading) -> SourceFile
    ensures { spec.file_view result ≡ reading_file reading }
{
    SourceFile {
        syntax: Syntax::SourceFile {
            attrs: reading.attrs,
            items: reading.items,
        },
        places: reading.places,
        use_trees: reading.use_trees,
        problems: reading.problems,
    }
}

fn read_file(
    alloc: Global,
    text: &str,
    wanted: Wanted,
    edition: EditionYear,
) -> Result<SourceFile, AllocError>
    ensures { IfOk result (λ file. spec.IsClippedFile wanted edition text.now (spec.file_view file)) }
{
    let reading = read_text(alloc, text, wanted, edition)?;
    Ok(file_of(reading))
}

/// Reads the items of a text. The edition tells which words are names.
///
/// It answers for every text: what is no item is passed over and told among the problems. Lines may end with line
/// feeds, or with carriage returns before them: only places tell which.
///
/// # Errors
///
/// Only if memory runs out.
#[tactic(auto, using(crate::proofs::BareFiles::file_seen))]
pub fn read_source_file(
    alloc: Global,
    text: &str,
    edition: EditionYear,
) -> Result<SourceFile, AllocError>
    ensures file { IfOk result (λ file. spec.IsSourceFile edition text.now file) }
    ensures placed { IfOk result (λ file. let items = items_of (syntax_view file.syntax) in
        ArePlaces (IsWritten text.now) 0 (length text.now) items file.places.items []) }
    ensures distinct { length text.now ≤ 2 ^ 32
        → IfOk result (λ file. AllPairs (λ p q. p.id ≢ q.id) file.places.items) }
{
    let wanted = Wanted {
        bodies: true,
        metas: WantedMetas::All,
    };
    read_wanted(alloc, text, wanted, edition)
}

/// Reads the items of a text as `read_source_file` does, but leaves out what is not wanted.
///
/// # Errors
///
/// Only if memory runs out.
#[tactic(auto, using(crate::proofs::BareFiles::clipped_placed, crate::proofs::BareFiles::clipped_distinct))]
pub fn read_wanted(
    alloc: Global,
    text: &str,
    wanted: Wanted,
    edition: EditionYear,
) -> Result<SourceFile, AllocError>
    ensures file { IfOk result (λ file. spec.IsClippedFile wanted edition text.now
        (spec.file_view file)) }
    ensures placed { IfOk result (λ file. let items = items_of (syntax_view file.syntax) in
        ArePlaces (IsWritten text.now) 0 (length text.now) items file.places.items []) }
    ensures distinct { length text.now ≤ 2 ^ 32
        → IfOk result (λ file. AllPairs (λ p q. p.id ≢ q.id) file.places.items) }
{
    read_file(alloc, text, wanted, edition)
}
