//! Line ends. The reader has a text with line feeds alone; the places that it tells are those of the text as it is.

ghost use Rattle.std.specs.Prelude.{◌≡◌, ◌<◌, ◌+◌, ◌^◌, ◌++◌, ◌==◌, [], ◌∷◌, if◌then◌else◌, false, IfOk, OnOk, length};
ghost use Rattle.std.specs.Prelude.{map, option_map, string_bytes};
ghost use Rattle.std.specs.List.{list_any};
ghost use Rattle.std.specs.List.Sorted.{IsNonDecreasing};
ghost use Rattle.rust_items.specs.LineEnds as spec;

use crate::log::{ItemSpan, Problem};
use memchr::memchr;
use rust_paths::TextRange;
use std::alloc::{AllocError, Global};

/// Where carriage returns before line feeds were left out of a text.
#[derive(Drop)]
pub struct LineEnds {
    /// How many bytes are left.
    pub len: usize,
    /// The places of these line feeds in what is left.
    pub returns: Vec<usize>,
    ghost rising: { IsNonDecreasing returns.items },
    ghost fits: { len + length returns.items < 2 ^ 64 },
}

/// Whether a carriage return stands in a text, before a line feed or not.
pub fn has_return(text: &str) -> bool
    ensures stands { result ≡ list_any (λ b. b == 13) text.now }
    ensures text { result ≡ false → spec.with_feeds text.now ≡ text.now }
    ensures returns { result ≡ false → spec.returns_from 0 text.now ≡ [] }
{
    match memchr(b'\r', text.as_bytes()) {
        Some(_) => true,
        None => false,
    }
}

/// Adds a carriage return, or its place where it stands before a line feed.
fn push_return(feeds: &mut String, returns: &mut Vec<usize>, behind: &str) -> Result<(), AllocError>
    ensures feeds { OnOk result (string_bytes feeds.new
        ≡ string_bytes feeds.old ++ (if spec.is_return 13 behind.now then [] else 13 ∷ [])) }
    ensures returns { OnOk result (returns.new.items
        ≡ returns.old.items ++ (if spec.is_return 13 behind.now then length (string_bytes feeds.old) ∷ [] else [])) }
{
    match behind.as_bytes() {
        [b'\n', ..] => Ok(returns.push(feeds.as_str().len())?),
        _ => Ok(feeds.push('\r')?),
    }
}

/// A text with line feeds alone, and where returns were left out.
///
/// # Errors
///
/// Only if memory runs out.
pub fn with_feeds(alloc: Global, text: &str) -> Result<(String, LineEnds), AllocError>
    ensures feeds { IfOk result (λ r. string_bytes r.0 ≡ spec.with_feeds text.now) }
    ensures len { IfOk result (λ r. r.1.len ≡ length (spec.with_feeds text.now)) }
    ensures returns { IfOk result (λ r. r.1.returns.items ≡ spec.returns_from 0 text.now) }
{
    let mut feeds = String::new(alloc);
    let mut returns = Vec::new(alloc);
    let mut left = text;
    'returns: while let Some((front, behind)) = left.split_once('\r') {
        feeds.push_str(front)?;
        push_return(&mut feeds, &mut returns, behind)?;
        left = behind;
    }
    feeds.push_str(left)?;
    let len = feeds.as_str().len();
    Ok((feeds, LineEnds { len, returns }))
}

impl LineEnds {
    /// Those of a text that has line feeds alone.
    pub fn none(alloc: Global, text: &str) -> Self
        ensures len { result.len ≡ length text.now }
        ensures returns { result.returns.items ≡ [] }
    {
        LineEnds {
            len: text.len(),
            returns: Vec::new(alloc),
        }
    }

    /// The place in the text as it is of what stands here in the text without them.
    pub fn place(&self, at: usize) -> usize
        ensures { result ≡ spec.place_by self.now.len self.now.returns.items at }
    {
        if at > self.len {
            return at;
        }
        at + self.returns.partition_point(|feed| *feed < at)
    }

    pub(crate) fn places(&self, alloc: Global, places: &[usize]) -> Result<Vec<usize>, AllocError>
        ensures { IfOk result (λ v. v.items
            ≡ map (spec.place_by self.now.len self.now.returns.items) places.now) }
    {
        let mut moved = Vec::with_capacity(alloc, places.len())?;
        for at in places {
            moved.push(self.place(*at))?;
        }
        Ok(moved)
    }

    fn range(&self, range: TextRange) -> TextRange
        ensures { result ≡ spec.moved_range
            (spec.place_by self.now.len self.now.returns.items) range }
    {
        TextRange {
            start: self.place(range.start),
            end: self.place(range.end),
        }
    }

    fn some_range(&self, range: Option<TextRange>) -> Option<TextRange>
        ensures { result ≡ option_map
            (spec.moved_range (spec.place_by self.now.len self.now.returns.items)) range }
    {
        match range {
            Some(range) => Some(self.range(range)),
            None => None,
        }
    }

    pub(crate) fn span(&self, span: ItemSpan) -> ItemSpan
        ensures { result ≡ spec.moved_span
            (spec.place_by self.now.len self.now.returns.items) span }
    {
        ItemSpan {
            range: self.range(span.range),
            name: self.some_range(span.name),
            body: self.some_range(span.body),
        }
    }

    fn problem(&self, problem: Problem) -> Problem
        ensures { result ≡ spec.moved_problem
            (spec.place_by self.now.len self.now.returns.items) problem }
    {
        Problem {
            kind: problem.kind,
            at: self.place(problem.at),
        }
    }

    pub(crate) fn problems(
        &self,
        alloc: Global,
        problems: &[Problem],
    ) -> Result<Vec<Problem>, AllocError>
        ensures { IfOk result (λ v. v.items
            ≡ map (spec.moved_problem (spec.place_by self.now.len self.now.returns.items)) problems.now) }
    {
        let mut moved = Vec::with_capacity(alloc, problems.len())?;
        for problem in problems {
            moved.push(self.problem(*problem))?;
        }
        Ok(moved)
    }
}
