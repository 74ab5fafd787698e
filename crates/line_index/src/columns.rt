//! From a column to a byte.
ghost use Rattle.std.specs.Prelude.{◌≡◌, ◌≤◌, ◌+◌, IfSome, ℕ, drop, length};
ghost use Rattle.line_index.specs.Points as spec;

use crate::bytes::{
    BLOCK, begins_end, byte_units, bytes_behind, ends_of_block, is_continuation, units_of_block,
};
use crate::{Style, Units};

/// How many units the rest of a character takes, with which some bytes begin.
#[tactic(auto, using(crate::proofs::InLine::rest_few))]
fn rest_units(units: Units, bytes: &[u8]) -> usize
    ensures value { result ≡ spec.rest_units units bytes.now }
    ensures few { result ≤ length bytes.now }
{
    let mut count = 0;
    let mut left = bytes;
    while let [byte, rest @ ..] = left {
        if !is_continuation(*byte) {
            return count;
        }
        count += byte_units(units, *byte) as usize;
        left = rest;
    }
    count
}

/// Whether a character begins with a byte that does not end before a column.
fn is_beyond(units: Units, column: usize, byte: u8, bytes: &[u8]) -> bool
    ensures { result ≡ spec.is_beyond units column byte bytes.now }
{
    !is_continuation(byte) && column < byte_units(units, byte) as usize + rest_units(units, bytes)
}

/// The byte of a line at which a column stands, byte by byte.
fn byte_of_part(style: Style, column: usize, text: &[u8]) -> usize
    ensures value { result ≡ spec.bytes_before style 0 column text.now }
    ensures within { result ≤ length text.now }
{
    let mut at = 0;
    let mut column = column;
    let mut left = text;
    while let [byte, rest @ ..] = left {
        if begins_end(style.line_ends, *byte) || is_beyond(style.units, column, *byte, rest) {
            return at;
        }
        column = column.saturating_sub(byte_units(style.units, *byte) as usize);
        at += 1;
        left = rest;
    }
    at
}

/// The column that is left behind a block of whole characters in a line, if all its characters go before the column.
#[tactic(auto, using(crate::proofs::InLine::block_passed))]
fn column_behind_block(style: Style, column: usize, text: &[u8]) -> Option<usize>
    ensures long { IfSome result (λ left. BLOCK ≤ length text.now) }
    ensures left { IfSome result (λ left. spec.bytes_before style 0 column text.now
        ≡ BLOCK + spec.bytes_before style 0 left (drop BLOCK text.now)) }
{
    if text.len() < BLOCK {
        return None;
    }
    let block = &text[..BLOCK];
    if ends_of_block(style.line_ends, block) != 0 {
        return None;
    }
    let units = units_of_block(style, block) as usize;
    if column < units + rest_units(style.units, bytes_behind(text, BLOCK)) {
        return None;
    }
    Some(column - units)
}

/// The byte of a line at which a column stands; what follows the line may stand behind it.
pub(crate) fn byte_in_line(style: Style, column: usize, text: &[u8]) -> usize
    ensures value { result ≡ spec.bytes_before style 0 column text.now }
    ensures within { result ≤ length text.now }
{
    let mut at = 0;
    let mut column = column;
    let mut left = text;
    while let Some(behind) = column_behind_block(style, column, left) {
        column = behind;
        at += BLOCK;
        left = bytes_behind(left, BLOCK);
    }
    at + byte_of_part(style, column, left)
}
