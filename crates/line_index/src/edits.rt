//! Where lines begin behind an edit.
ghost use Rattle.std.specs.Prelude.{◌≡◌, ◌≤◌, ◌<◌, ◌+◌, ◌-◌, ◌++◌, ◌^◌, [], ◌∷◌, if◌then◌else◌};
ghost use Rattle.std.specs.Prelude.{IfOk, OnOk, map, length};
ghost use Rattle.std.specs.List.{All};
ghost use Rattle.line_index.specs.Inner as inner;
ghost use Rattle.line_index.specs.Points as points;
ghost use Rattle.line_index.specs.Starts as spec;

use crate::LineEnds;
use crate::bytes::{bytes_behind, is_line_end};
use crate::starts::count_up_to;
use std::alloc::{AllocError, Global};

/// Bytes that begin as some bytes and those behind them do.
#[tactic(auto, using(crate::proofs::ReplacedLines::fed_in_front))]
fn next_to<'t>(bytes: &'t [u8], behind: &'t [u8]) -> &'t [u8]
    ensures { points.is_fed result.now ≡ points.is_fed (bytes.now ++ behind.now) }
{
    if bytes.is_empty() { behind } else { bytes }
}

fn push_start(starts: &mut Vec<usize>, is_start: bool, at: usize) -> Result<(), AllocError>
    ensures { OnOk result (starts.new.items ≡ starts.old.items ++ (if is_start then at ∷ [] else [])) }
{
    if is_start {
        return Ok(starts.push(at)?);
    }
    Ok(())
}

/// Adds the places behind the line ends of bytes, which begin at a place and stand in front of others.
#[tactic(auto, using(crate::proofs::ReplacedLines::ends_by_feed))]
pub(crate) fn push_starts(
    starts: &mut Vec<usize>,
    line_ends: LineEnds,
    at: usize,
    bytes: &[u8],
    next: &[u8],
) -> Result<(), AllocError>
    requires { at + length bytes.now < 2 ^ 64 }
    ensures { OnOk result (starts.new.items ≡ starts.old.items ++ inner.starts_before line_ends at next.now bytes.now) }
{
    let mut at = at;
    let mut left = bytes;
    while let [byte, rest @ ..] = left {
        at += 1;
        push_start(
            starts,
            is_line_end(line_ends, *byte, next_to(rest, next)),
            at,
        )?;
        left = rest;
    }
    Ok(())
}

/// Adds places that were counted from one byte, counted from another.
fn push_moved(
    starts: &mut Vec<usize>,
    moved: &[usize],
    from: usize,
    to: usize,
) -> Result<(), AllocError>
    requires behind { All (λ s. from ≤ s) moved.now }
    requires fits { All (λ s. s - from + to < 2 ^ 64) moved.now }
    ensures { OnOk result (starts.new.items ≡ starts.old.items ++ map (λ s. s - from + to) moved.now) }
{
    for start in moved {
        starts.push(*start - from + to)?;
    }
    Ok(())
}

/// The places behind the line ends of a text with other bytes in a range, by those of the text.
pub(crate) fn replaced_starts(
    alloc: Global,
    line_ends: LineEnds,
    starts: &[usize],
    text: &[u8],
    from: usize,
    to: usize,
    with: &[u8],
) -> Result<Vec<usize>, AllocError>
    requires starts { starts.now ≡ spec.line_starts line_ends text.now }
    requires range { from ≤ to }
    requires within { to ≤ length text.now }
    ensures { IfOk result (λ v. v.items ≡ spec.line_starts line_ends (spec.replace_range text.now from to with.now)) }
{
    let before = from.saturating_sub(1);
    let behind = bytes_behind(text, to);
    let kept = count_up_to(starts, before);
    let passed = count_up_to(starts, to);
    let mut new = Vec::with_capacity(alloc, starts.len() + 1)?;
    new.extend_from_slice(&starts[..kept])?;
    push_starts(
        &mut new,
        line_ends,
        before,
        &text[before..from],
        next_to(with, behind),
    )?;
    push_starts(&mut new, line_ends, from, with, behind)?;
    push_moved(&mut new, &starts[passed..], to, from + with.len())?;
    Ok(new)
}
