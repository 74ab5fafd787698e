//! The parts of a text as rows, each with its own tokens.

ghost use Rattle.std.specs.Prelude.{◌≡◌, ◌++◌, IfOk, OnOk, map, flat_map};
ghost use Rattle.source_changes.specs.ChangeViews.{row_part, text_row_view};
ghost use Rattle.source_changes.specs.Rows as spec;
ghost use Rattle.source_changes.specs.Views.{part_view};

use crate::kept::Hole;
use crate::row_changes::Row;
use crate::text_parts::Part;
use rust_items::TextRange;
use std::alloc::{AllocError, Global};

/// Adds what stands between braces.
fn push_inside(body: Option<TextRange>, holes: &mut Vec<Hole>) -> Result<(), AllocError>
    ensures { OnOk result (holes.new.items ≡ holes.old.items ++ spec.hole_inside body) }
{
    let Some(body) = body else {
        return Ok(());
    };
    if body.start >= body.end {
        return Ok(());
    }
    holes.push(Hole {
        start: body.start + 1,
        end: body.end - 1,
    })?;
    Ok(())
}

/// What stands between the braces of functions, which are no tokens of the text's skeleton.
pub fn bodies(alloc: Global, parts: &[Part]) -> Result<Vec<Hole>, AllocError>
    ensures { IfOk result (λ v. v.items ≡ spec.bodies (map part_view parts.now)) }
{
    let mut holes = Vec::new(alloc);
    for part in parts {
        push_inside(part.body, &mut holes)?;
    }
    Ok(holes)
}

/// Adds what of a part are no tokens of those around it.
fn push_outside(
    range: TextRange,
    kept: Option<TextRange>,
    holes: &mut Vec<Hole>,
) -> Result<(), AllocError>
    ensures { OnOk result (holes.new.items ≡ holes.old.items ++ spec.outside_name range kept) }
{
    let Some(name) = kept else {
        holes.push(Hole {
            start: range.start,
            end: range.end,
        })?;
        return Ok(());
    };
    holes.push(Hole {
        start: range.start,
        end: name.start,
    })?;
    holes.push(Hole {
        start: name.end,
        end: range.end,
    })?;
    Ok(())
}

/// Adds the same of those of some parts, in preorder, that begin before a place.
#[tactic(auto, using(crate::proofs::PartHoles::begun_more, crate::proofs::PartHoles::begun_stop))]
pub(crate) fn push_begun(
    place: usize,
    parts: &[Part],
    holes: &mut Vec<Hole>,
) -> Result<(), AllocError>
    ensures { OnOk result (holes.new.items ≡ holes.old.items
        ++ spec.holes_begun place (map part_view parts.now)) }
{
    for part in parts {
        if part.range.start >= place {
            return Ok(());
        }
        push_outside(part.range, part.kept, holes)?;
    }
    Ok(())
}

/// What of a part are no tokens of its own, where these come behind it.
fn holes(alloc: Global, part: &Part, behind: &[Part]) -> Result<Vec<Hole>, AllocError>
    ensures { IfOk result (λ v. v.items
        ≡ spec.holes (part_view part.now) (map part_view behind.now)) }
{
    let mut holes = Vec::new(alloc);
    push_inside(part.body, &mut holes)?;
    push_begun(part.range.end, behind, &mut holes)?;
    Ok(holes)
}

fn moved_back(alloc: Global, by: usize, holes: &[Hole]) -> Result<Vec<Hole>, AllocError>
    ensures { IfOk result (λ v. v.items ≡ map (spec.moved_back by) holes.now) }
{
    let mut moved = Vec::with_capacity(alloc, holes.len())?;
    for hole in holes {
        moved.push(Hole {
            start: hole.start.saturating_sub(by),
            end: hole.end.saturating_sub(by),
        })?;
    }
    Ok(moved)
}

/// The same in the part's own text.
pub(crate) fn own_holes(
    alloc: Global,
    part: &Part,
    behind: &[Part],
) -> Result<Vec<Hole>, AllocError>
    ensures { IfOk result (λ v. v.items
        ≡ spec.own_holes (part_view part.now) (map part_view behind.now)) }
{
    let holes = holes(alloc, part, behind)?;
    moved_back(alloc, part.range.start, &holes)
}

/// Each part of a text, which come in preorder, with what tells its own tokens. Documentation counts where that is
/// asked.
pub fn rows<'a>(
    alloc: Global,
    text: &'a str,
    parts: &'a [Part],
    has_docs: bool,
) -> Result<Vec<Row<'a>>, AllocError>
    ensures rows { IfOk result (λ v. map text_row_view v.items
        ≡ spec.part_rows has_docs text.now (map part_view parts.now)) }
    ensures parts { IfOk result (λ v. map row_part v.items ≡ map part_view parts.now) }
{
    let mut rows = Vec::with_capacity(alloc, parts.len())?;
    let mut left = parts;
    while let [part, behind @ ..] = left {
        rows.push(Row {
            part,
            behind,
            text,
            has_docs,
        })?;
        left = behind;
    }
    Ok(rows)
}
