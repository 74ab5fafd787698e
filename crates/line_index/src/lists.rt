//! Where places of a text stand in lists.
ghost use Rattle.std.specs.Prelude.{◌≡◌, ◌≤◌, ◌<◌, ◌+◌, ◌-◌, ◌*◌, ◌^◌, ◌==◌, drop, take, length, List, ℕ, count_by};
ghost use Rattle.line_index.specs.Inner as inner;
ghost use Rattle.line_index.specs.Points as points;
ghost use Rattle.line_index.specs.Positions as spec;

use crate::bytes::{byte_units, bytes_behind, ends_of_block, units_of};
use crate::{LineEnds, Position, Style, Units};
use std::marker::Model;

/// Tells where places of a text stand.
///
/// It goes from place to place, so that places in rising order cost one pass over the text in all. It takes no memory.
#[derive(Drop)]
pub struct LineIndex<'t> {
    text: &'t [u8],
    /// How many bytes the byte order mark has, if one begins the text: it is not shown, so it takes no column.
    mark: usize,
    /// A place after the mark, counted from there.
    at: usize,
    /// Where that place stands, by a column of these units.
    here: Position,
    units: Units,
}

impl<'t> Model for LineIndex<'t> {
    ghost use Rattle.std.specs.Prelude.{ℕ, List, ◌≡◌, ◌≤◌, drop, length};
    ghost use Rattle.std.specs.Coded.{coded_list, coded_ℕ};
    ghost use Rattle.line_index.specs.Inner.{shown_at};
    ghost use Rattle.line_index.specs.Points.{mark_length};

    ghost Value = { List ℕ };

    ghost coded = { coded_list coded_ℕ };

    ghost view = { λ i. i.text.now };

    ghost invariant = { λ i. let shown = drop i.mark i.text.now in
        (i.mark ≡ mark_length i.text.now) × (i.here ≡ shown_at i.units shown i.at) × (i.at ≤ length shown) };
}

const START: Position = Position { line: 1, column: 1 };

fn list_style(units: Units) -> Style
    ensures { result ≡ spec.list_style units }
{
    Style {
        units,
        line_ends: LineEnds::Feeds,
        shows_mark: false,
    }
}

// At most so many line feeds are counted in one byte: sixteen bytes of a text are then one vector of counts.
const BLOCK: usize = 192;

/// How many line feeds stand in a text.
#[tactic(auto, using(crate::proofs::Positions::feeds_within), unfolding(crate::specs::Points::begins_end))]
fn feeds(text: &[u8]) -> usize
    ensures { result ≡ count_by (λ b. b == 10) text.now }
{
    let mut count = 0;
    let mut left = text;
    while BLOCK < left.len() {
        count += ends_of_block(LineEnds::Feeds, &left[..BLOCK]) as usize;
        left = &left[BLOCK..];
    }
    count + ends_of_block(LineEnds::Feeds, left) as usize
}

/// The column behind a text, from its end back to its last line feed.
fn column_behind(units: Units, start: Position, text: &[u8]) -> usize
    requires { start.column + 2 * length text.now < 2 ^ 64 }
    ensures { result ≡ (inner.position_behind units start text.now).column }
{
    let mut count = 0;
    let mut left = text;
    while let [rest @ .., byte] = left {
        if *byte == b'\n' {
            return 1 + count;
        }
        count += byte_units(units, *byte) as usize;
        left = rest;
    }
    start.column + count
}

#[tactic(auto, using(crate::proofs::Positions::line_is))]
fn position_behind(units: Units, start: Position, text: &[u8]) -> Position
    requires lines { start.line + length text.now < 2 ^ 64 }
    requires columns { start.column + 2 * length text.now < 2 ^ 64 }
    ensures { result ≡ inner.position_behind units start text.now }
{
    Position {
        line: start.line + feeds(text),
        column: column_behind(units, start, text),
    }
}

/// From one place of a text to a later one.
#[tactic(auto, unfolding(crate::specs::Inner::shown_at), using(crate::proofs::Positions::onward, crate::proofs::Positions::line_within, crate::proofs::Positions::column_within,),)]
fn position_onward(units: Units, text: &[u8], from: usize, here: Position, at: usize) -> Position
    requires here { here ≡ inner.shown_at units text.now from }
    requires later { from ≤ at }
    requires within { at ≤ length text.now }
    requires small { length text.now < 2 ^ 63 }
    ensures { result ≡ inner.shown_at units text.now at }
{
    position_behind(units, here, &text[from..at])
}

/// The column of an earlier place of a text, from which so many line feeds stand up to here.
fn column_back(
    units: Units,
    text: &[u8],
    from: usize,
    here: Position,
    at: usize,
    feeds: usize,
) -> usize
    requires here { here ≡ inner.shown_at units text.now from }
    requires earlier { at ≤ from }
    requires within { from ≤ length text.now }
    requires small { length text.now < 2 ^ 63 }
    requires feeds { feeds ≡ count_by (λ b. b == 10) (take (from - at) (drop at text.now)) }
    ensures { result ≡ (inner.shown_at units text.now at).column }
{
    if feeds == 0 {
        return here.column - units_of(list_style(units), &text[at..from]);
    }
    column_behind(units, START, &text[..at])
}

/// From one place of a text to an earlier one.
fn position_back(units: Units, text: &[u8], from: usize, here: Position, at: usize) -> Position
    requires here { here ≡ inner.shown_at units text.now from }
    requires earlier { at ≤ from }
    requires within { from ≤ length text.now }
    requires small { length text.now < 2 ^ 63 }
    ensures { result ≡ inner.shown_at units text.now at }
{
    let feeds = feeds(&text[at..from]);
    Position {
        line: here.line - feeds,
        column: column_back(units, text, from, here, at, feeds),
    }
}

/// From one place of a text to any other.
fn position_at(units: Units, text: &[u8], from: usize, here: Position, at: usize) -> Position
    requires here { here ≡ inner.shown_at units text.now from }
    requires known { from ≤ length text.now }
    requires within { at ≤ length text.now }
    requires small { length text.now < 2 ^ 63 }
    ensures { result ≡ inner.shown_at units text.now at }
{
    if from <= at {
        position_onward(units, text, from, here, at)
    } else {
        position_back(units, text, from, here, at)
    }
}

/// The same place of a text with its column in units.
#[tactic(auto, using(crate::proofs::Positions::counted))]
fn position_in_units(units: Units, text: &[u8], at: usize, known: Units, here: Position) -> Position
    requires here { here ≡ inner.shown_at known text.now at }
    requires within { at ≤ length text.now }
    requires small { length text.now < 2 ^ 63 }
    ensures { result ≡ inner.shown_at units text.now at }
{
    if units == known {
        return here;
    }
    Position {
        line: here.line,
        column: column_behind(units, START, &text[..at]),
    }
}

pub(crate) fn mark_length(text: &[u8]) -> usize
    ensures length { result ≡ points.mark_length text.now }
    ensures within { result ≤ length text.now }
{
    if text.starts_with(b"\xEF\xBB\xBF") {
        3
    } else {
        0
    }
}

impl<'t> LineIndex<'t> {
    #[tactic(auto, using(crate::proofs::Positions::at_start))]
    pub fn new(text: &'t str) -> Self
        ensures { result ≡ text.now }
    {
        let text = text.as_bytes();
        LineIndex {
            text,
            mark: mark_length(text),
            at: 0,
            here: START,
            units: Units::Characters,
        }
    }

    /// Where a place of the text stands, by its byte; one past the text stands at its end.
    pub fn position(&mut self, at: usize) -> Position
        ensures value { result ≡ spec.position_of self.old at }
        ensures same { self.new ≡ self.old }
    {
        self.position_in(Units::Characters, at)
    }

    /// The same with its column in units. Other units than those of the place before cost a pass over that line.
    #[tactic(auto, using(crate::proofs::Positions::place_is))]
    pub fn position_in(&mut self, units: Units, at: usize) -> Position
        ensures value { result ≡ spec.position_in units self.old at }
        ensures same { self.new ≡ self.old }
    {
        let shown = bytes_behind(self.text, self.mark);
        let end = at.saturating_sub(self.mark).min(shown.len());
        let here = position_in_units(units, shown, self.at, self.units, self.here);
        self.here = position_at(units, shown, self.at, here, end);
        self.at = end;
        self.units = units;
        self.here
    }
}
