//! How far quoted literals go.

ghost use Rattle.std.specs.Prelude.{◌≡◌, ◌≤◌, ◌<◌, ◌+◌, ◌^◌, length, IfSome, false};
ghost use Rattle.rust_lexer.specs.Quoted as spec;

use crate::bytes::{Class, byte, run};

/// How many bytes belong to a quoted literal or to a comment, and whether it is closed.
#[derive(Clone, Copy, Debug)]
pub(crate) struct Extent {
    pub len: usize,
    pub is_closed: bool,
}

fn closed_extent(len: usize) -> Extent
    ensures { result ≡ spec.closed_extent len }
{
    Extent {
        len,
        is_closed: true,
    }
}

fn unclosed_extent(len: usize) -> Extent
    ensures { result ≡ spec.unclosed_extent len }
{
    Extent {
        len,
        is_closed: false,
    }
}

/// Up to the `"` that closes a string, from behind the one that opens it and `start` bytes before.
pub(crate) fn string(start: usize, mut z: &[u8]) -> Extent
    requires { start + length z.now < 2 ^ 64 }
    ensures value { result ≡ spec.string false start z.entry.now }
    ensures within { result.len ≤ start + length z.entry.now }
{
    let mut is_escaped = false;
    let mut count = start;
    while let [b, rest @ ..] = z {
        if !is_escaped && *b == b'"' {
            return closed_extent(count + 1);
        }
        is_escaped = !is_escaped && *b == b'\\';
        count += 1;
        z = rest;
    }
    unclosed_extent(count)
}

/// Up to a `"` with so many `#` behind it, and with them.
fn raw(hashes: usize, start: usize, mut z: &[u8]) -> Extent
    requires { start + length z.now < 2 ^ 64 }
    ensures value { result ≡ spec.raw hashes start z.entry.now }
    ensures within { result.len ≤ start + length z.entry.now }
{
    let mut count = start;
    while let [b, rest @ ..] = z {
        if *b == b'"' && hashes <= run(Class::Hash, rest) {
            return closed_extent(count + 1 + hashes);
        }
        count += 1;
        z = rest;
    }
    unclosed_extent(count)
}

/// A raw string from its `#` on and `start` bytes before, or `None` where no quote stands behind them.
pub(crate) fn raw_string(start: usize, z: &[u8]) -> Option<Extent>
    requires { start + length z.now < 2 ^ 64 }
    ensures value { result ≡ spec.raw_string start z.now }
    ensures within { IfSome result (λ extent. extent.len ≤ start + length z.now) }
{
    let hashes = run(Class::Hash, z);
    if byte(z, hashes) == b'"' {
        Some(raw(hashes, start + hashes + 1, &z[hashes + 1..]))
    } else {
        None
    }
}

/// Up to the `'` that closes a character of several, but not past a `/` nor past the end of a line.
fn single(start: usize, mut z: &[u8]) -> Extent
    requires { start + length z.now < 2 ^ 64 }
    ensures value { result ≡ spec.single false start z.entry.now }
    ensures within { result.len ≤ start + length z.entry.now }
{
    let mut is_escaped = false;
    let mut count = start;
    while let [b, rest @ ..] = z {
        if !is_escaped && *b == b'\'' {
            return closed_extent(count + 1);
        }
        if !is_escaped && ends_single(*b, byte(rest, 0)) {
            return unclosed_extent(count);
        }
        is_escaped = !is_escaped && *b == b'\\';
        count += 1;
        z = rest;
    }
    unclosed_extent(count)
}

fn ends_single(b: u8, next: u8) -> bool
    ensures { result ≡ spec.ends_single b next }
{
    b == b'/' || (b == b'\n' && next != b'\'')
}

/// How many bytes the first character has.
fn char_len(z: &[u8]) -> usize
    requires { 0 < length z.now }
    ensures value { result ≡ spec.char_len z.now }
    ensures within { result ≤ length z.now }
{
    1 + run(Class::Continuation, &z[1..])
}

/// Whether one character stands before a `'`.
pub(crate) fn is_one_char(z: &[u8]) -> bool
    ensures { result ≡ spec.is_one_char z.now }
{
    !z.is_empty() && z[0] != b'\\' && byte(z, char_len(z)) == b'\''
}

/// A character or a byte behind its `'` and `start` bytes before.
pub(crate) fn character(start: usize, z: &[u8]) -> Extent
    requires { start + length z.now < 2 ^ 64 }
    ensures value { result ≡ spec.character start z.now }
    ensures within { result.len ≤ start + length z.now }
{
    if is_one_char(z) {
        closed_extent(start + char_len(z) + 1)
    } else {
        single(start, z)
    }
}
