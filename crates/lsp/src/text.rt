//! The text of a document.
ghost use Rattle.std.specs.Prelude.{◌≡◌, ◌≤◌, IfOk, IsCharBoundary, OnErr, OnOk, string_bytes};
ghost use Rattle.line_index.specs.Starts.{replace_range};
ghost use Rattle.lsp.specs.Bytes as spec;

use crate::position::Span;
use line_index::{LineEnds, LineStarts, Point, Style, Units};
use rust_paths::TextRange;
use std::alloc::{AllocError, Global};
use std::marker::Model;

/// The text of a document, with where its lines begin.
#[derive(Drop)]
pub(crate) struct LinedText {
    text: String,
    starts: LineStarts,
}

impl Model for LinedText {
    ghost use Rattle.std.specs.Prelude.{ℕ, List, ◌≡◌, string_bytes};
    ghost use Rattle.std.specs.Coded.{coded_list, coded_ℕ};
    ghost use Rattle.line_index.specs.Starts.{line_starts};
    ghost use Rattle.line_index.specs.declared.LineEnds.TheVariants.{All};

    ghost Value = { List ℕ };

    ghost coded = { coded_list coded_ℕ };

    ghost view = { λ x. string_bytes x.text };

    ghost invariant = { λ x. x.starts ≡ line_starts All (string_bytes x.text) };
}

/// A line ends as the protocol has it, and a byte order mark is a character of a text.
fn protocol_style(units: Units) -> Style
    ensures { result ≡ spec.protocol_style units }
{
    Style {
        units,
        line_ends: LineEnds::All,
        shows_mark: true,
    }
}

/// A text with another in a range of it.
fn replaced_text(
    alloc: Global,
    text: &str,
    from: usize,
    to: usize,
    with: &str,
) -> Result<String, AllocError>
    requires from { IsCharBoundary text.now from }
    requires to { IsCharBoundary text.now to }
    ensures { IfOk result (λ made. string_bytes made ≡ replace_range text.now from to with.now) }
{
    let mut made = String::with_capacity(alloc, text.len().saturating_add(with.len()))?;
    made.push_str(&text[..from])?;
    made.push_str(with)?;
    made.push_str(&text[to..])?;
    Ok(made)
}

impl LinedText {
    /// # Errors
    ///
    /// Only if memory runs out.
    pub(crate) fn new(alloc: Global, text: String) -> Result<LinedText, AllocError>
        ensures { IfOk result (λ lined. lined ≡ string_bytes text) }
    {
        let starts = LineStarts::new(alloc, LineEnds::All, &text)?;
        Ok(LinedText { text, starts })
    }

    pub(crate) fn text(&self) -> &str
        ensures { result.now ≡ self.now }
    {
        &self.text
    }

    /// The byte of a position.
    pub(crate) fn byte(&self, units: Units, place: Point) -> usize
        ensures value { result ≡ spec.byte_of units place self.now }
        ensures boundary { IsCharBoundary self.now result }
    {
        self.starts.byte(protocol_style(units), &self.text, place)
    }

    /// Where a byte stands.
    pub(crate) fn place(&self, units: Units, at: usize) -> Point
        ensures { result ≡ spec.place_of_byte units self.now at }
    {
        self.starts.point(protocol_style(units), &self.text, at)
    }

    /// Where a range of bytes stands.
    pub(crate) fn span(&self, units: Units, range: TextRange) -> Span
        ensures { result ≡ spec.range_span units self.now range }
    {
        Span {
            start: self.place(units, range.start),
            end: self.place(units, range.end),
        }
    }

    /// Puts another text in the place of a range.
    ///
    /// # Errors
    ///
    /// Only if memory runs out; then the text is as it was.
    pub(crate) fn replace(
        &mut self,
        alloc: Global,
        from: usize,
        to: usize,
        with: &str,
    ) -> Result<(), AllocError>
        requires order { from ≤ to }
        requires from { IsCharBoundary self.old from }
        requires to { IsCharBoundary self.old to }
        ensures done { OnOk result (self.new ≡ replace_range self.old from to with.now) }
        ensures stays { OnErr result (self.new ≡ self.old) }
    {
        let made = replaced_text(alloc, &self.text, from, to, with)?;
        self.starts
            .replace(alloc, LineEnds::All, &self.text, from, to, with)?;
        self.text = made;
        Ok(())
    }
}
