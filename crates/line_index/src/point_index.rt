//! Where bytes of a text stand, by counts that are kept for each part of it.
ghost use Rattle.std.specs.Prelude.{◌≡◌, ◌≤◌, ◌-◌, ◌==◌, ◌^◌, ◌<◌, ◌*◌, if◌then◌else◌, IfOk, OnOk, get_or, take, drop};
ghost use Rattle.std.specs.Prelude.{length};
ghost use Rattle.std.specs.List.{sum_by};
ghost use Rattle.line_index.specs.Inner as inner;
ghost use Rattle.line_index.specs.Points as points;
ghost use Rattle.line_index.specs.Starts as spec;

use crate::bytes::units_of;
use crate::lists::mark_length;
use crate::starts::count_up_to;
use crate::{Point, Style};
use std::alloc::{AllocError, Global};
use std::marker::Model;

/// Finds where bytes of a text stand, in any order, each at the cost of a part of the text.
#[derive(Drop)]
pub struct PointIndex<'t> {
    style: Style,
    text: &'t [u8],
    /// The places after the line ends.
    starts: &'t [usize],
    /// How many units stand before each part.
    counts: Vec<usize>,
}

impl<'t> Model for PointIndex<'t> {
    ghost use Rattle.std.specs.Prelude.{◌≡◌};
    ghost use Rattle.std.specs.Coded.{codes};
    ghost use Rattle.line_index.specs.Inner.{AreCounts};
    ghost use Rattle.line_index.specs.Starts.{line_starts, StyledText};

    ghost Value = { StyledText };

    ghost coded = { Prim.hlevel codes };

    ghost view = { λ i. record { style = i.style; text = i.text.now } };

    ghost invariant = { λ i. (i.starts.now ≡ line_starts i.style.line_ends i.text.now)
        × AreCounts i.style i.text.now i.counts.items };
}

// The length of a part.
const PART: usize = 1024;

/// How many bytes in front of a text are not shown.
pub(crate) fn hidden_length(style: Style, text: &[u8]) -> usize
    ensures value { result ≡ points.hidden_length style text.now }
    ensures within { result ≤ length text.now }
{
    if style.shows_mark {
        0
    } else {
        mark_length(text)
    }
}

/// Where a line begins of which so many begin before it.
pub(crate) fn begin_of(starts: &[usize], line: usize, first: usize) -> usize
    requires { line ≤ length starts.now }
    ensures { result ≡ (if line == 0 then first else get_or starts.now (line - 1) 0) }
{
    if line == 0 {
        return first;
    }
    starts[line - 1]
}

/// Counts the units before each part of a text.
fn counts_of(alloc: Global, style: Style, text: &[u8]) -> Result<Vec<usize>, AllocError>
    requires { length text.now < 2 ^ 63 }
    ensures { IfOk result (λ counts. inner.AreCounts style text.now counts.items) }
{
    let mut counts = Vec::with_capacity(alloc, text.len() / PART + 1)?;
    counts.push(0)?;
    let (mut count, mut at) = (0, 0);
    while PART <= text.len() - at {
        count += units_of(style, &text[at..at + PART]);
        at += PART;
        counts.push(count)?;
    }
    Ok(counts)
}

/// How many units the bytes before a place take.
fn units_before(style: Style, text: &[u8], counts: &[usize], at: usize) -> usize
    requires counts { inner.AreCounts style text.now counts.now }
    requires within { at ≤ length text.now }
    ensures { result ≡ sum_by (points.column_units style) (take at text.now) }
{
    let part = at / PART;
    counts[part] + units_of(style, &text[part * PART..at])
}

/// How many units the bytes between two places take.
fn units_between(style: Style, text: &[u8], counts: &[usize], from: usize, to: usize) -> usize
    requires counts { inner.AreCounts style text.now counts.now }
    requires order { from ≤ to }
    requires within { to ≤ length text.now }
    ensures { result ≡ sum_by (points.column_units style) (take (to - from) (drop from text.now)) }
{
    if to - from < PART {
        return units_of(style, &text[from..to]);
    }
    units_before(style, text, counts, to) - units_before(style, text, counts, from)
}

impl<'t> PointIndex<'t> {
    /// Finds places by where the lines of a text begin.
    ///
    /// # Errors
    ///
    /// Only if memory runs out.
    pub(crate) fn new(
        alloc: Global,
        style: Style,
        text: &'t [u8],
        starts: &'t [usize],
    ) -> Result<PointIndex<'t>, AllocError>
        requires { starts.now ≡ spec.line_starts style.line_ends text.now }
        ensures style { IfOk result (λ index. index.style ≡ style) }
        ensures text { IfOk result (λ index. index.text ≡ text.now) }
    {
        let counts = counts_of(alloc, style, text)?;
        Ok(PointIndex {
            style,
            text,
            starts,
            counts,
        })
    }

    pub fn text(&self) -> &'t [u8]
        ensures { result.now ≡ self.now.text }
    {
        self.text
    }

    /// Where a byte of the text stands; one past the text stands at its end.
    pub fn point(&self, at: usize) -> Point
        ensures { result ≡ points.point_at self.now.style self.now.text at }
    {
        let (style, text, starts) = (self.style, self.text, self.starts);
        let first = hidden_length(style, text);
        let at = at.min(text.len()).max(first);
        let line = count_up_to(starts, at);
        let begin = begin_of(starts, line, first);
        Point {
            line,
            column: units_between(style, text, self.counts.as_slice(), begin, at),
        }
    }
}
