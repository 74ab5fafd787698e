//! Classes of bytes, and runs of bytes of one class.

ghost use Rattle.std.specs.Prelude.{◌≡◌, ◌≢◌, ◌<◌, ◌≤◌, false, length, slice_index};
ghost use Rattle.rust_lexer.specs.Bytes as spec;
ghost use Rattle.rust_lexer.specs.declared.bytes.Class.TheVariants as class;
ghost use Rattle.rust_lexer.specs.Inner as inner;

use crate::words::words;
use memchr::memchr;
use unicode_ident::{is_xid_continue, is_xid_start};

/// A set of bytes.
#[derive(Clone, Copy, Debug)]
pub(crate) enum Class {
    /// White space.
    White,
    /// The bytes of identifiers.
    Word,
    /// What a line may hold.
    Line,
    /// The `#` alone.
    Hash,
    /// The `-` alone.
    Dash,
    /// The `_` alone.
    Low,
    /// Decimal digits and `_`.
    Decimal,
    /// Hexadecimal digits and `_`.
    Hexadecimal,
    /// The bytes of a character behind its first.
    Continuation,
}

const WORD: u8 = 1;

const WHITE: u8 = 2;

const LETTER: u8 = 4;

const OPEN: u8 = 8;

const CLOSE: u8 = 16;

const PUNCT: u8 = 32;

// For each byte `@`, with the flags above.
static CLASSES: [u8; 256] = *b"\
    @@@@@@@@@BBBBB@@@@@@@@@@@@@@@@@@\
    B`@````@HP`````@AAAAAAAAAA``````\
    `EEEEEEEEEEEEEEEEEEEEEEEEEEH@P`E\
    @EAAEEEEEEEEEEEEEEAEEEEEEEEH`P`@\
    AAAAAAAAAAAAAAAAAAAAAAAAAAAAAAAA\
    AAAAAAAAAAAAAAAAAAAAAAAAAAAAAAAA\
    @@@@@@@@@@@@@@@@@@@@@@@@@@@@@@@@\
    @@@@@@@@@@@@@@@@@@@@@@@@@@@@@@@@";

/// Whether a byte goes on with an identifier, whatever stands behind it.
#[inline(always)]
fn is_word_byte(b: u8) -> bool
    ensures { result ≡ inner.is_word_byte b }
{
    CLASSES[b as usize] & WORD != 0
}

/// Whether a byte is white space of ASCII.
#[inline(always)]
pub(crate) fn is_blank(b: u8) -> bool
    ensures { result ≡ inner.is_blank_byte b }
{
    CLASSES[b as usize] & WHITE != 0
}

/// Whether a byte is a letter of ASCII or `_`, but none that may begin a literal.
#[inline(always)]
pub(crate) fn is_letter(b: u8) -> bool
    ensures { result ≡ inner.is_letter b }
{
    CLASSES[b as usize] & LETTER != 0
}

/// Whether a byte is a bracket, or a mark that begins no comment.
#[inline(always)]
pub(crate) fn is_mark(b: u8) -> bool
    ensures { result ≡ inner.is_mark_byte b }
{
    CLASSES[b as usize] & (OPEN | CLOSE | PUNCT) != 0
}

/// Whether a byte is a bracket that opens.
#[inline(always)]
pub(crate) fn is_open(b: u8) -> bool
    ensures { result ≡ inner.is_open_byte b }
{
    CLASSES[b as usize] & OPEN != 0
}

/// Whether a byte is a bracket that closes.
#[inline(always)]
pub(crate) fn is_close(b: u8) -> bool
    ensures { result ≡ inner.is_close_byte b }
{
    CLASSES[b as usize] & CLOSE != 0
}

/// Whether a byte before these is white space past ASCII.
fn is_wide_white(b: u8, behind: &[u8]) -> bool
    ensures { result ≡ spec.is_wide_white b behind.now }
{
    if b < 128 {
        return false;
    }
    match b {
        0xC2 => byte(behind, 0) == 0x85,
        0xE2 => byte(behind, 0) == 0x80 && matches!(byte(behind, 1), 0x8E | 0x8F | 0xA8 | 0xA9),
        _ => false,
    }
}

/// Whether a byte before these is white space. The reference's `WHITESPACE`.
pub(crate) fn is_white(b: u8, behind: &[u8]) -> bool
    ensures { result ≡ spec.is_white b behind.now }
{
    is_blank(b) || is_wide_white(b, behind)
}

/// Whether a byte continues a character.
fn is_continuation(b: u8) -> bool
    ensures { result ≡ spec.is_continuation b }
{
    128 <= b && b < 192
}

/// The six bits that a byte behind the first of a character gives.
fn low(b: u8) -> u32
    ensures value { result ≡ spec.low_bits b }
    ensures within { result < 64 }
{
    (b % 64) as u32
}

/// The number of the character past ASCII that begins with this byte, before these.
fn code(b: u8, behind: &[u8]) -> u32
    ensures { result ≡ spec.code b behind.now }
{
    let first = b as u32;
    let second = low(byte(behind, 0));
    if first < 0xE0 {
        return first % 32 * 64 + second;
    }
    let third = low(byte(behind, 1));
    if first < 0xF0 {
        return first % 16 * 4096 + second * 64 + third;
    }
    first % 8 * 262144 + second * 4096 + third * 64 + low(byte(behind, 2))
}

/// The character past ASCII that begins with this byte, before these.
#[cold]
#[inline(never)]
fn wide_char(b: u8, behind: &[u8]) -> Option<char>
    ensures { result ≡ inner.wide_char b behind.now }
{
    char::from_u32(code(b, behind))
}

/// Whether an identifier may begin with a character past ASCII.
#[tactic(auto, unfolding(crate::specs::Bytes::is_wide_start))]
fn is_wide_start(b: u8, behind: &[u8]) -> bool
    ensures { result ≡ spec.is_wide_start b behind.now }
{
    if b < 192 {
        return false;
    }
    match wide_char(b, behind) {
        Some(c) => is_xid_start(c),
        None => false,
    }
}

/// Whether a character past ASCII may stand in an identifier.
#[tactic(auto, unfolding(crate::specs::Bytes::is_wide_continue))]
fn is_wide_continue(b: u8, behind: &[u8]) -> bool
    ensures { result ≡ spec.is_wide_continue b behind.now }
{
    if b < 192 {
        return false;
    }
    match wide_char(b, behind) {
        Some(c) => is_xid_continue(c),
        None => false,
    }
}

/// Whether an identifier may begin with a byte, before these.
pub(crate) fn is_start(b: u8, behind: &[u8]) -> bool
    ensures { result ≡ spec.is_start b behind.now }
{
    b.is_ascii_alphabetic() || b == b'_' || is_wide_start(b, behind)
}

/// Whether a byte before these is of the class.
pub(crate) fn is_in(class: Class, b: u8, behind: &[u8]) -> bool
    ensures { result ≡ spec.is_in_class class b behind.now }
{
    match class {
        Class::White => is_white(b, behind) || is_continuation(b),
        Class::Word => is_word_byte(b) || is_wide_continue(b, behind),
        Class::Line => b != b'\n',
        Class::Hash => b == b'#',
        Class::Dash => b == b'-',
        Class::Low => b == b'_',
        Class::Decimal => b.is_ascii_digit() || b == b'_',
        Class::Hexadecimal => b.is_ascii_hexdigit() || b == b'_',
        Class::Continuation => is_continuation(b),
    }
}

/// The byte at a place, or 0 past the end.
pub(crate) fn byte(z: &[u8], at: usize) -> u8
    ensures value { result ≡ slice_index z.now at }
    ensures within { result ≢ 0 → at < length z.now }
{
    if at < z.len() { z[at] } else { 0 }
}

/// How many bytes stand before the end of a line, or of all.
#[tactic(auto, using(crate::proofs::Lines::line_run, crate::proofs::Lines::line_within))]
fn line(z: &[u8]) -> usize
    ensures value { result ≡ spec.run_length class.Line z.now }
    ensures within { result ≤ length z.now }
{
    memchr(b'\n', z).unwrap_or(z.len())
}

/// How many bytes at the front are of the class, one by one.
#[inline(always)]
pub(crate) fn run_by_bytes(class: Class, mut z: &[u8]) -> usize
    ensures value { result ≡ spec.run_length class z.entry.now }
    ensures within { result ≤ length z.entry.now }
{
    let mut count = 0;
    while let [b, rest @ ..] = z {
        if !is_in(class, *b, rest) {
            return count;
        }
        count += 1;
        z = rest;
    }
    count
}

/// How many bytes at the front are of the class.
#[inline(always)]
pub(crate) fn run(class: Class, z: &[u8]) -> usize
    ensures value { result ≡ spec.run_length class z.now }
    ensures within { result ≤ length z.now }
{
    match class {
        Class::Line => line(z),
        Class::Word => words(z),
        _ => run_by_bytes(class, z),
    }
}

/// Whether an identifier may begin at the front.
pub(crate) fn is_word_start(z: &[u8]) -> bool
    ensures { result ≡ spec.is_word_start z.now }
{
    match z {
        [b, rest @ ..] => is_start(*b, rest),
        [] => false,
    }
}

/// The same or a digit.
pub(crate) fn is_word(z: &[u8]) -> bool
    ensures { result ≡ spec.is_word z.now }
{
    is_word_start(z) || byte(z, 0).is_ascii_digit()
}
