//! Where the next bracket, quote or `/` stands.

ghost use Rattle.std.specs.Prelude.{◌≡◌, ◌==◌, ◌≤◌, ◌<◌, ◌+◌, ◌^◌, ℕ, drop, length, slice_index};
ghost use Rattle.std.specs.Int.{bit_at};
ghost use Rattle.rust_lexer.specs.Inner as inner;

use crate::bytes::{byte, is_close, is_open};
use std::simd::prelude::*;

const LANES: usize = 64;

/// Which of the bytes of a text between two places are brackets, quotes or `/`: the stops. There are 64 of them, or
/// none.
#[derive(Clone, Copy)]
pub(crate) struct Block {
    at: usize,
    end: usize,
    /// One bit for each byte.
    bits: u64,
}

impl Block {
    /// Of no bytes.
    pub(crate) fn empty() -> Self
        ensures { (z : _) → inner.IsBlock z 0 result }
    {
        Block {
            at: 0,
            end: 0,
            bits: 0,
        }
    }
}

fn is_quote(b: u8) -> bool
    ensures { result ≡ inner.is_quote_byte b }
{
    matches!(b, b'"' | b'\'')
}

fn is_stop(b: u8) -> bool
    ensures { result ≡ inner.is_stop_byte b }
{
    is_open(b) || is_close(b) || is_quote(b) || b == b'/'
}

/// Which of 64 bytes are stops.
#[inline(always)]
fn stops(v: u8x64) -> u64
    ensures { (k : ℕ) → k < 64 → (bit_at result k == 1) ≡ inner.is_stop_byte (slice_index v k) }
{
    // `[` differs in one bit from `{`, as `]` from `}` and `(` from `)`.
    let curly = v | u8x64::splat(0x20);
    let closed = v | u8x64::splat(1);
    (curly.simd_eq(u8x64::splat(b'{'))
        | curly.simd_eq(u8x64::splat(b'}'))
        | closed.simd_eq(u8x64::splat(b')'))
        | v.simd_eq(u8x64::splat(b'"'))
        | v.simd_eq(u8x64::splat(b'\''))
        | v.simd_eq(u8x64::splat(b'/'))).to_bitmask()
}

/// How many bytes at the front are no stops, one by one.
#[inline(never)]
fn gap(mut z: &[u8]) -> usize
    ensures value { result ≡ inner.gap z.entry.now }
    ensures within { result ≤ length z.entry.now }
{
    let mut count = 0;
    while let [b, rest @ ..] = z {
        if is_stop(*b) {
            return count;
        }
        count += 1;
        z = rest;
    }
    count
}

/// The block of a place: the one that it stands in already, or else the one that begins there.
#[inline(always)]
fn block_at(z: &[u8], at: usize, block: Block) -> Block
    requires block { inner.IsBlock z.now at block }
    requires room { block.end ≤ at → at + LANES ≤ length z.now }
    ensures block { inner.IsBlock z.now at result }
    ensures holds { at < result.end }
    ensures fits { result.bits < 2 ^ 64 }
{
    if at < block.end {
        return block;
    }
    Block {
        at,
        end: at + LANES,
        bits: stops(u8x64::from_slice(&z[at..])),
    }
}

/// The place of the first stop from a place on, or the end.
#[inline(always)]
pub(crate) fn stop_from(z: &[u8], from: usize, block: &mut Block) -> usize
    requires within { from ≤ length z.now }
    requires block { inner.IsBlock z.now from block.old }
    ensures value { result ≡ from + inner.gap (drop from z.now) }
    ensures within { result ≤ length z.now }
    ensures block { inner.IsBlock z.now result block.new }
{
    let mut at = from;
    'blocks: while at < block.end || LANES <= z.len() - at {
        *block = block_at(z, at, *block);
        let bits = block.bits >> (at - block.at);
        if bits != 0 {
            return at + bits.trailing_zeros() as usize;
        }
        at = block.end;
    }
    at + gap(&z[at..])
}

/// Whether a token ends before a stop, where one begins at a place before it and none of the bytes between them is a
/// stop.
#[inline(always)]
pub(crate) fn is_clean(z: &[u8], from: usize, stop: usize) -> bool
    requires order { from ≤ stop }
    requires within { stop ≤ length z.now }
    ensures { result ≡ inner.is_clean z.now from stop }
{
    from == stop || !is_quote(byte(z, stop)) || !matches!(z[stop - 1], b'#' | b'b' | b'c' | b'r')
}
