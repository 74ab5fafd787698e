//! What moved from a part around it to another of the same label.

ghost use Rattle.std.specs.Prelude.{◌≡◌, ◌∷◌, [], IfOk, map};
ghost use Rattle.std.specs.List.{zip};
ghost use Rattle.source_changes.specs.Matches.{ranks};
ghost use Rattle.source_changes.specs.ChangeViews.{row_change_view, row_part, text_row_view};
ghost use Rattle.source_changes.specs.Inner.{frame_view, standing_row_view, standing_view};
ghost use Rattle.source_changes.specs.Moves as spec;
ghost use Rattle.source_changes.specs.Views.{part_view};

use crate::labelled::label_rows;
use crate::matching::{Keyed, match_keyed, ranks};
use crate::row_changes::{Change, Row, changes_of};
use crate::text_parts::Part;
use std::alloc::{AllocError, Global};

/// A part around others: where it ends, what it is called, and how many parts of that label come before it.
#[derive(Clone, Copy)]
pub(crate) struct Frame<'a> {
    end: usize,
    label: &'a str,
    rank: usize,
}

/// What a part is called, and the innermost part around it.
#[derive(Clone, Copy, PartialEq, Eq, Hash)]
pub(crate) struct Standing<'a> {
    label: &'a str,
    around: &'a str,
    rank: usize,
}

/// A row, with where it stands as its key.
type StandingRow<'a> = Keyed<Standing<'a>, Row<'a>>;

/// Those that end behind a place.
fn frames_at<'a>(
    alloc: Global,
    place: usize,
    frames: &[Frame<'a>],
) -> Result<Vec<Frame<'a>>, AllocError>
    ensures { IfOk result (λ v. map frame_view v.items
        ≡ spec.frames_at place (map frame_view frames.now)) }
{
    let mut left = Vec::new(alloc);
    for frame in frames {
        if place < frame.end {
            left.push(*frame)?;
        }
    }
    Ok(left)
}

/// Where what is called so stands in these, the innermost first.
fn standing_in<'a>(frames: &[Frame<'a>], label: &'a str) -> Standing<'a>
    ensures { standing_view result ≡ spec.standing_in (map frame_view frames.now) label.now }
{
    match frames {
        [frame, ..] => Standing {
            label,
            around: frame.label,
            rank: frame.rank,
        },
        [] => Standing {
            label,
            around: "",
            rank: 0,
        },
    }
}

/// A part, and behind it those around it.
fn enter_part<'a>(
    alloc: Global,
    part: &'a Part,
    rank: usize,
    around: &mut Vec<Frame<'a>>,
) -> Result<Vec<Frame<'a>>, AllocError>
    ensures { IfOk result (λ v. map frame_view v.items
        ≡ spec.frame_of (part_view part.now) rank ∷ map frame_view around.old.items) }
{
    let mut frames = Vec::new(alloc);
    frames.push(Frame {
        end: part.range.end,
        label: &part.label,
        rank,
    })?;
    frames.append(around)?;
    Ok(frames)
}

/// Rows whose parts have these ranks, each with where it stands.
fn standing_rows_in<'a>(
    alloc: Global,
    rows: &[Row<'a>],
    ranks: &[usize],
) -> Result<Vec<StandingRow<'a>>, AllocError>
    ensures { let standings = spec.standings_from [] (map row_part rows.now) ranks.now in
        IfOk result (λ v. map standing_row_view v.items ≡ zip standings (map text_row_view rows.now)) }
{
    let (mut items, mut frames) = (Vec::new(alloc), Vec::new(alloc));
    let (mut left_rows, mut left_ranks) = (rows, ranks);
    while let ([row, more_rows @ ..], [rank, more_ranks @ ..]) = (left_rows, left_ranks) {
        let mut around = frames_at(alloc, row.part.range.start, &frames)?;
        items.push(Keyed {
            key: standing_in(&around, &row.part.label),
            item: *row,
        })?;
        frames = enter_part(alloc, row.part, *rank, &mut around)?;
        left_rows = more_rows;
        left_ranks = more_ranks;
    }
    Ok(items)
}

/// The rows of a text, each with where it stands.
fn standing_rows<'a>(alloc: Global, rows: &[Row<'a>]) -> Result<Vec<StandingRow<'a>>, AllocError>
    ensures { let all = spec.standing_rows (map row_part rows.now) (map text_row_view rows.now) in
        IfOk result (λ v. map standing_row_view v.items ≡ all) }
{
    let labelled = label_rows(alloc, rows)?;
    let ranks = ranks(alloc, &labelled)?;
    standing_rows_in(alloc, rows, &ranks)
}

/// What became of the rows of a text in another, as by `changes`, but that two rows are the same row only where they
/// stand in the same part: both parts are the n-th of their label. So a row that moved from a part to another was
/// removed and added.
///
/// # Errors
///
/// Only if memory runs out.
pub fn moves<'r>(
    alloc: Global,
    old: &[Row<'r>],
    new: &[Row<'r>],
) -> Result<Vec<Change<'r>>, AllocError>
    ensures { let olds = spec.standing_rows (map row_part old.now) (map text_row_view old.now) in
        let news = spec.standing_rows (map row_part new.now) (map text_row_view new.now) in
        IfOk result (λ v. map row_change_view v.items ≡ spec.row_moves olds news) }
{
    let olds = standing_rows(alloc, old)?;
    let news = standing_rows(alloc, new)?;
    let found = match_keyed(alloc, &olds, &news)?;
    changes_of(alloc, &found)
}
