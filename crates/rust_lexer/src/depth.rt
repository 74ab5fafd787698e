//! Passes over what stands in braces.

ghost use Rattle.std.specs.Prelude.{ℕ, ◌≡◌, ◌==◌, ◌&&◌, ◌≤◌, ◌<◌, ◌+◌, ◌^◌, IfSome, IsTrue, Some, drop, length, IsUtf8};
ghost use Rattle.rust_lexer.specs.Depths as spec;
ghost use Rattle.rust_lexer.specs.Inner.{IsTokenBoundary, IsBlock};
ghost use Rattle.rust_lexer.specs.Tokens.{tokens_from};
ghost use Rattle.rust_lexer.specs.declared.depth.Depth.{Depth};

use crate::bytes::{is_close, is_open};
use crate::cut::token_len;
use crate::stops::{Block, is_clean, stop_from};

/// In how many brackets something stands that is in braces.
#[derive(Clone, Copy, Debug)]
pub struct Depth {
    /// In how many braces.
    pub braces: usize,
    /// In how many of `(` and `[` that were opened in braces.
    pub inner: usize,
    /// Whether one of these closed nothing.
    pub is_torn: bool,
}

// A copy is its source: the derive is held to it by this clause; the function does nothing.
fn copied_depth()
    ensures { (source copy : Depth) → ⟦<Depth as Clone>⟧.is_clone source copy → copy ≡ source }
{}

/// Counts a token that begins with this byte, unless there are too many brackets to be counted.
#[inline(always)]
fn count_bracket(first: u8, depth: &mut Depth) -> bool
    ensures { IsTrue result → depth.new ≡ spec.depth_behind depth.old first }
{
    if !is_open(first) && !is_close(first) {
        return true;
    }
    match first {
        b'{' => {
            if depth.braces == usize::MAX {
                return false;
            }
            depth.braces += 1;
        }
        b'}' => depth.braces = depth.braces.saturating_sub(1),
        b'(' | b'[' => {
            if depth.inner == usize::MAX {
                return false;
            }
            depth.inner += 1;
        }
        _ => {
            depth.is_torn = depth.is_torn || depth.inner == 0;
            depth.inner = depth.inner.saturating_sub(1);
        }
    }
    true
}

/// Whether a symbol closes the last of so many braces.
#[inline(always)]
fn is_last(depth: Depth, symbol: u8) -> bool
    ensures { result ≡ (depth.braces == 1 && symbol == 125) }
{
    depth.braces == 1 && symbol == b'}'
}

/// The next stop from a token's beginning on, where a token ends before it: those between them count for nothing. Else
/// the same place; the stop is put down, and up to there tokens are cut.
#[inline(always)]
pub(crate) fn past_gap(bytes: &[u8], count: usize, until: &mut usize, block: &mut Block) -> usize
    requires within { count ≤ length bytes.now }
    requires block { IsBlock bytes.now until.old block.old }
    ensures same { (d : Depth) (at : ℕ) →
        spec.to_outer d (tokens_from 0 (at + result) (drop result bytes.now))
        ≡ spec.to_outer d (tokens_from 0 (at + count) (drop count bytes.now)) }
    ensures begins { IsTokenBoundary bytes.now count → IsTokenBoundary bytes.now result }
    ensures onwards { count ≤ result }
    ensures within { result ≤ length bytes.now }
    ensures block { IsBlock bytes.now until.new block.new }
{
    if count < *until {
        return count;
    }
    let stop = stop_from(bytes, count, block);
    *until = stop;
    if is_clean(bytes, count, stop) {
        return stop;
    }
    count
}

/// The `}` that closes the last of so many braces, in a text that begins at this place: in which brackets it stands,
/// its place, and the text from it on.
pub(crate) fn to_outer(at: usize, text: &str, depth: Depth) -> Option<(Depth, usize, &str)>
    requires { at + length text.now < 2 ^ 64 }
    ensures value { IfSome result (λ p. spec.to_outer depth (tokens_from 0 at text.now)
        ≡ Some (p.0, tokens_from 0 p.1 p.2.now)) }
    ensures utf8 { IfSome result (λ p. IsUtf8 p.2.now) }
    ensures fits { IfSome result (λ p. p.1 + length p.2.now < 2 ^ 64) }
{
    let bytes = text.as_bytes();
    let mut depth = depth;
    let mut count = 0;
    let mut until = 0;
    let mut block = Block::empty();
    'tokens: while count < bytes.len() {
        let first = bytes[count];
        if is_last(depth, first) {
            return Some((depth, at + count, text.split_at(count).1));
        }
        if !count_bracket(first, &mut depth) {
            return None;
        }
        count += 1 + token_len(first, &bytes[count + 1..]);
        count = past_gap(bytes, count, &mut until, &mut block);
    }
    None
}
