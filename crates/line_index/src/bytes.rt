//! What the bytes of a text are and take.
ghost use Rattle.std.specs.Prelude.{◌≡◌, ◌≤◌, ◌*◌, drop, length};
ghost use Rattle.std.specs.List.{count_by, sum_by};
ghost use Rattle.line_index.specs.Points as spec;

use crate::{LineEnds, Style, Units};

pub(crate) fn is_continuation(byte: u8) -> bool
    ensures { result ≡ spec.continues_character byte }
{
    128 <= byte && byte < 192
}

/// How many units a byte takes.
pub(crate) fn byte_units(units: Units, byte: u8) -> u8
    ensures value { result ≡ spec.byte_units units byte }
    ensures few { result ≤ 2 }
{
    match units {
        Units::Characters => { if is_continuation(byte) { 0 } else { 1 } }
        Units::Utf16 => {
            if is_continuation(byte) {
                0
            } else if byte < 240 {
                1
            } else {
                2
            }
        }
        Units::Bytes => 1,
    }
}

#[tactic(auto, unfolding(crate::specs::Points::begins_end))]
pub(crate) fn begins_end(line_ends: LineEnds, byte: u8) -> bool
    ensures { result ≡ spec.begins_end line_ends byte }
{
    match line_ends {
        LineEnds::Feeds => byte == b'\n',
        LineEnds::All => byte == b'\n' || byte == b'\r',
    }
}

pub(crate) fn is_fed(bytes: &[u8]) -> bool
    ensures { result ≡ spec.is_fed bytes.now }
{
    match bytes {
        [first, ..] => *first == b'\n',
        [] => false,
    }
}

#[tactic(auto, unfolding(crate::specs::Points::is_split))]
fn is_split(byte: u8, bytes: &[u8]) -> bool
    ensures { result ≡ spec.is_split byte bytes.now }
{
    byte == b'\r' && is_fed(bytes)
}

/// Whether the line ends behind a byte, in front of these.
pub(crate) fn is_line_end(line_ends: LineEnds, byte: u8, bytes: &[u8]) -> bool
    ensures { result ≡ spec.is_line_end line_ends byte bytes.now }
{
    begins_end(line_ends, byte) && !is_split(byte, bytes)
}

fn column_units(style: Style, byte: u8) -> u8
    ensures value { result ≡ spec.column_units style byte }
    ensures few { result ≤ 2 }
{
    if begins_end(style.line_ends, byte) {
        return 0;
    }
    byte_units(style.units, byte)
}

/// A text behind its first bytes.
pub(crate) fn bytes_behind(text: &[u8], count: usize) -> &[u8]
    requires { count ≤ length text.now }
    ensures { result.now ≡ drop count text.now }
{
    &text[count..]
}

// So many bytes take at most 192 units, which are counted in one byte: sixteen of a text are then one vector of counts.
pub(crate) const BLOCK: usize = 96;

/// How many units so few bytes take.
#[inline(always)]
pub(crate) fn units_of_block(style: Style, block: &[u8]) -> u8
    requires { length block.now ≤ BLOCK }
    ensures { result ≡ sum_by (spec.column_units style) block.now }
{
    let mut count = 0;
    for byte in block {
        count += column_units(style, *byte);
    }
    count
}

/// How many line ends begin in so few bytes.
#[inline(always)]
pub(crate) fn ends_of_block(line_ends: LineEnds, block: &[u8]) -> u8
    requires { length block.now ≤ 2 * BLOCK }
    ensures { result ≡ count_by (spec.begins_end line_ends) block.now }
{
    let mut count = 0;
    for byte in block {
        if begins_end(line_ends, *byte) {
            count += 1;
        }
    }
    count
}

/// How many units some bytes take.
#[tactic(auto, using(crate::proofs::Positions::column_units_within))]
pub(crate) fn units_of(style: Style, bytes: &[u8]) -> usize
    ensures { result ≡ sum_by (spec.column_units style) bytes.now }
{
    let mut count = 0;
    let mut left = bytes;
    while BLOCK < left.len() {
        count += units_of_block(style, &left[..BLOCK]) as usize;
        left = &left[BLOCK..];
    }
    count + units_of_block(style, left) as usize
}
