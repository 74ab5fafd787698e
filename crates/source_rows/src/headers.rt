//! What items without a name are called by.

ghost use Rattle.std.specs.Prelude.{◌≡◌, ◌++◌, [], IfOk, OnOk, string_bytes};
ghost use Rattle.rust_cursor.specs.Words.{text};
ghost use Rattle.source_rows.specs.Blanks.{gap_text};
ghost use Rattle.source_rows.specs.Blanks as blanks;
ghost use Rattle.source_rows.specs.Headers as spec;

use crate::blanks::{Spacing, first_spacing, spacing_behind, stands_close};
use crate::labels::text_at;
use hir_input::EditionYear;
use rust_cursor::Cursor;
use rust_items::TextRange;
use rust_leaves::{Wanted, WantedMetas, wanted_front};
use std::alloc::{AllocError, Global};

// Most headers are shorter than so many bytes: they take memory once.
const ROOM: usize = 64;

/// Adds the text of the next token, which stands there.
fn push_token(out: &mut String, spacing: Spacing, cursor: &Cursor<'_>) -> Result<(), AllocError>
    ensures { OnOk result (string_bytes out.new ≡ string_bytes out.old
        ++ (gap_text spacing cursor.now ++ text cursor.now)) }
{
    if stands_close(spacing, cursor) {
        return out.push_str(cursor.text());
    }
    out.push_str(" ")?;
    out.push_str(cursor.text())
}

/// Whether this symbol can follow a header, of which this is done.
fn can_follow(out: &str, symbol: u8) -> bool
    ensures { result ≡ spec.can_follow out.now symbol }
{
    match symbol {
        b'{' | b';' | b'=' => true,
        b'!' => !out.is_empty(),
        _ => false,
    }
}

fn ends_before(is_cut: bool, out: &str, cursor: &Cursor<'_>) -> bool
    ensures { result ≡ spec.ends_before is_cut out.now cursor.now }
{
    if cursor.word() == "where" {
        return true;
    }
    !is_cut && can_follow(out, cursor.symbol())
}

/// Whether a header, of which this is done, is over, where brackets reach up to a place.
fn is_over(is_cut: bool, reach: usize, out: &str, cursor: &Cursor<'_>) -> bool
    ensures { result ≡ spec.is_over is_cut reach out.now cursor.now }
{
    if cursor.is_empty() {
        return true;
    }
    cursor.last_end() >= reach && ends_before(is_cut, out, cursor)
}

#[tactic(auto, using(crate::proofs::Steps::spaced_stop, crate::proofs::Steps::spaced_more))]
fn spaced_tokens(alloc: Global, is_cut: bool, cursor: &mut Cursor<'_>) -> Result<String, AllocError>
    ensures { IfOk result (λ out. string_bytes out ≡ spec.spaced_tokens is_cut [] blanks.first_spacing cursor.old) }
{
    let mut out = String::with_capacity(alloc, ROOM)?;
    let mut spacing = first_spacing();
    'tokens: while !is_over(is_cut, spacing.reach, &out, cursor) {
        push_token(&mut out, spacing, cursor)?;
        spacing = spacing_behind(spacing, cursor);
        cursor.bump();
    }
    Ok(out)
}

#[tactic(auto, unfolding(crate::specs::Headers::header_in, rust_leaves::specs::Clipped::with_value))]
fn header_in(
    alloc: Global,
    is_cut: bool,
    item: &str,
    edition: EditionYear,
) -> Result<String, AllocError>
    ensures { IfOk result (λ out. string_bytes out ≡ spec.header_in is_cut edition item.now) }
{
    let mut cursor = Cursor::new(item, edition);
    let wanted = Wanted {
        bodies: false,
        metas: WantedMetas::Conditions,
    };
    let _front = wanted_front(alloc, &mut cursor, wanted)?;
    cursor.pass_angles();
    spaced_tokens(alloc, is_cut, &mut cursor)
}

/// The header of an item that stands in this range of a text: what stands behind the words that begin it and their
/// generics, as `Display for Circle` of an impl.
///
/// The braces are those of an impl, if they are known: its header ends there or at its `where`. Any other also ends at
/// a `{`, a `;`, a `=` and a `!` that is not its first token.
///
/// # Errors
///
/// Only if memory runs out.
pub fn header(
    alloc: Global,
    text: &str,
    edition: EditionYear,
    range: TextRange,
    braces: Option<TextRange>,
) -> Result<String, AllocError>
    ensures { IfOk result (λ out. string_bytes out ≡ spec.header edition text.now range braces) }
{
    match braces {
        Some(braces) => {
            let front = TextRange {
                start: range.start,
                end: braces.start,
            };
            header_in(alloc, true, text_at(text, front), edition)
        }
        None => header_in(alloc, false, text_at(text, range), edition),
    }
}
