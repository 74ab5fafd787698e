//! How far a word goes, sixteen bytes at a time.

ghost use Rattle.std.specs.Prelude.{◌≡◌, ◌==◌, ◌≤◌, ◌<◌, ◌^◌, ℕ, length, slice_index};
ghost use Rattle.std.specs.Int.{bit_at};
ghost use Rattle.rust_lexer.specs.Bytes as spec;
ghost use Rattle.rust_lexer.specs.Inner as inner;
ghost use Rattle.rust_lexer.specs.declared.bytes.Class.TheVariants as class;

use crate::bytes::{Class, run_by_bytes};
use std::simd::prelude::*;

const LANES: usize = 16;

/// Which of 16 bytes are letters, digits and `_` of ASCII, one bit each.
#[inline(always)]
fn plain(v: u8x16) -> u64
    ensures { ((k : ℕ) → k < 16 → (bit_at result k == 1) ≡ inner.is_plain_byte (slice_index v k))
        × (result < 2 ^ 16) }
{
    let lower = v | u8x16::splat(0x20);
    let is_letter = lower.simd_ge(u8x16::splat(b'a')) & lower.simd_le(u8x16::splat(b'z'));
    let is_digit = v.simd_ge(u8x16::splat(b'0')) & v.simd_le(u8x16::splat(b'9'));
    (is_letter | is_digit | v.simd_eq(u8x16::splat(b'_'))).to_bitmask()
}

/// The same of a word that is long, ends near the end of a text, or is not of ASCII alone.
#[inline(never)]
fn any_words(z: &[u8]) -> usize
    ensures value { result ≡ spec.run_length class.Word z.now }
    ensures within { result ≤ length z.now }
{
    run_by_bytes(Class::Word, z)
}

/// How many bytes at the front go on with an identifier.
#[inline(always)]
pub(crate) fn words(z: &[u8]) -> usize
    ensures value { result ≡ spec.run_length class.Word z.now }
    ensures within { result ≤ length z.now }
{
    if LANES <= z.len() {
        let count = plain(u8x16::from_slice(z)).trailing_ones() as usize;
        if count < LANES && z[count] < 128 {
            return count;
        }
    }
    any_words(z)
}
