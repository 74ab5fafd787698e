//! What stands in none of the items of a text.

ghost use Rattle.std.specs.Prelude.{◌≡◌, ◌++◌, ◌∷◌, [], IfOk, OnOk, map, option_map};
ghost use Rattle.rust_lexer.specs.Tokens.{tokens};
ghost use Rattle.source_changes.specs.ChangeViews.{text_row_view};
ghost use Rattle.source_changes.specs.Outside as spec;
ghost use Rattle.source_changes.specs.Views.{part_view};

use crate::kept::{Hole, is_begun, not_over};
use crate::row_changes::Row;
use crate::text_parts::Part;
use crate::tokens::push_begun;
use hir_input::EditionYear;
use rust_cursor::Cursor;
use rust_items::TextRange;
use rust_lexer::Lexer;
use rust_metas::{WantedMetas, kept_inner_attributes};
use std::alloc::{AllocError, Global};

/// The place of the first token that stands in none of some parts.
fn first_kept(text: &str, holes: &[Hole]) -> Option<usize>
    ensures { result ≡ spec.first_kept holes.now (tokens text.now) }
{
    let mut left = holes;
    let mut lexer = Lexer::new(text);
    'tokens: while let Some(token) = lexer.next() {
        left = not_over(token.at(), left);
        if token.is_significant() && !is_begun(token.at(), left) {
            return Some(token.at());
        }
    }
    None
}

/// Where the attributes of a file end.
fn attributes_end(alloc: Global, text: &str, edition: EditionYear) -> Result<usize, AllocError>
    ensures { IfOk result (λ at. at ≡ spec.attributes_end edition text.now) }
{
    let mut cursor = Cursor::new(text, edition);
    let _attributes = kept_inner_attributes(alloc, &mut cursor, WantedMetas::Conditions)?;
    Ok(cursor.last_end())
}

fn outside_start(
    alloc: Global,
    text: &str,
    edition: EditionYear,
    has_attributes: bool,
) -> Result<usize, AllocError>
    ensures { IfOk result (λ at. at ≡ spec.outside_start has_attributes edition text.now) }
{
    if has_attributes {
        return Ok(0);
    }
    attributes_end(alloc, text, edition)
}

/// All of a text, with or behind the attributes of the file, as a part of it, if tokens stand there that are in none of
/// its items.
///
/// # Errors
///
/// Only if memory runs out.
pub fn stray_part(
    alloc: Global,
    text: &str,
    edition: EditionYear,
    has_attributes: bool,
    parts: &[Part],
) -> Result<Option<Part>, AllocError>
    ensures { IfOk result (λ part. option_map part_view part
        ≡ spec.outside_of has_attributes edition text.now (map part_view parts.now)) }
{
    let start = outside_start(alloc, text, edition, has_attributes)?;
    let mut holes = Vec::new(alloc);
    holes.push(Hole {
        start: 0,
        end: start,
    })?;
    push_begun(text.len(), parts, &mut holes)?;
    let Some(at) = first_kept(text, &holes) else {
        return Ok(None);
    };
    Ok(Some(Part {
        label: String::from_str(alloc, "tokens outside of all items")?,
        at,
        range: TextRange {
            start,
            end: text.len(),
        },
        kept: None,
        body: None,
        is_hidden: false,
    }))
}

/// The row of a part in which others stand, if there is one.
///
/// # Errors
///
/// Only if memory runs out.
pub fn row_around<'a>(
    alloc: Global,
    text: &'a str,
    part: &'a Option<Part>,
    parts: &'a [Part],
    has_docs: bool,
) -> Result<Vec<Row<'a>>, AllocError>
    ensures { IfOk result (λ v. map text_row_view v.items
        ≡ spec.row_of has_docs text.now (map part_view parts.now) (option_map part_view part.now)) }
{
    let mut rows = Vec::new(alloc);
    let Some(part) = part else {
        return Ok(rows);
    };
    rows.push(Row {
        part,
        behind: parts,
        text,
        has_docs,
    })?;
    Ok(rows)
}
