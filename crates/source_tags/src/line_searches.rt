//! The lines of a text, and the searches for them in a tags file.
ghost use Rattle.std.specs.Prelude.{◌≡◌, ◌<◌, ◌≤◌, ◌++◌, OnOk, is_some, option_map, string_bytes};
ghost use Rattle.line_index.specs.Positions.{continues_character, mark_length as length_of_mark};
ghost use Rattle.source_tags.specs.LineSearches as spec;
ghost use Rattle.source_tags.specs.LineSearches.{line_after};
ghost use Rattle.source_tags.specs.Views.{line_view};

use rust_paths::TextRange;
use source_rows::text_at;
use std::alloc::AllocError;

/// A line of a text, without its line feed.
#[derive(Clone, Copy)]
pub(crate) struct Line<'t> {
    text: &'t str,
    /// What stands behind the line feed, if it has one.
    behind: Option<&'t str>,
}

fn first_line(text: &str) -> Line<'_>
    ensures { line_view result ≡ spec.text_line text.now }
{
    match text.split_once('\n') {
        Some((line, behind)) => Line {
            text: line,
            behind: Some(behind),
        },
        None => Line { text, behind: None },
    }
}

fn next_line(line: Line<'_>) -> Line<'_>
    ensures { line_view result ≡ spec.next_line (line_view line.entry) }
{
    match line.behind {
        Some(behind) => first_line(behind),
        None => first_line(""),
    }
}

/// The line that stands so many lines on.
fn line_on(mut line: Line<'_>, count: usize) -> Line<'_>
    ensures { line_view result ≡ spec.line_on count (line_view line.entry) }
{
    for _step in 0..count {
        line = next_line(line);
    }
    line
}

/// How many bytes a byte order mark at the beginning has, if one stands there.
fn mark_length(text: &str) -> usize
    ensures { result ≡ length_of_mark text.now }
{
    if text.as_bytes().starts_with(b"\xEF\xBB\xBF") {
        3
    } else {
        0
    }
}

/// The text without a byte order mark.
fn shown_text(text: &str) -> &str
    ensures { result.now ≡ spec.shown_text text.now }
{
    let range = TextRange {
        start: mark_length(text),
        end: text.len(),
    };
    text_at(text, range)
}

/// Goes from line to line of a text, so that lines in rising order cost one pass over it in all.
#[derive(Drop)]
pub(crate) struct LineTexts<'t> {
    /// Without a byte order mark.
    pub(crate) text: &'t str,
    line: Line<'t>,
    /// How many lines stand before that one.
    number: usize,
    ghost is_line: { line_view line ≡ line_after number text.now },
}

impl<'t> LineTexts<'t> {
    pub(crate) fn new(text: &'t str) -> Self
        ensures { result.text.now ≡ spec.shown_text text.now }
    {
        let text = shown_text(text);
        LineTexts {
            text,
            line: first_line(text),
            number: 0,
        }
    }

    /// The line with so many before it.
    #[tactic(auto, using(crate::proofs::Searches::lines_on))]
    fn line_at(&self, number: usize) -> Line<'t>
        ensures { line_view result ≡ line_after number self.now.text.now }
    {
        if number < self.number {
            return line_on(first_line(self.text), number);
        }
        line_on(self.line, number - self.number)
    }

    /// Adds the search for the line with so many before it, as Universal Ctags writes it: the whole line, or what of it
    /// begins within 96 bytes of the search.
    pub(crate) fn push_search(&mut self, number: usize, out: &mut String) -> Result<(), AllocError>
        ensures text { let line = line_after number self.old.text.now in
            OnOk result (string_bytes out.new ≡ string_bytes out.old ++ spec.line_search line) }
        ensures same { self.new.text ≡ self.old.text }
    {
        let line = self.line_at(number);
        *self = LineTexts {
            text: self.text,
            line,
            number,
        };
        push_line_search(line, out)
    }
}

/// What stands before the last byte of a text, if that is this one.
fn before_last(text: &str, byte: char) -> Option<&str>
    requires { byte < 128 }
    ensures { option_map (λ s. s.now) result ≡ spec.before_last byte text.now }
{
    text.strip_suffix(byte)
}

/// A line without the carriage return that belongs to its line feed.
fn without_return(line: Line<'_>) -> &str
    ensures { let l = line_view line.entry in
        result.now ≡ spec.own_text (is_some l.behind) l.text }
{
    if line.behind.is_none() {
        return line.text;
    }
    match before_last(line.text, '\r') {
        Some(front) => front,
        None => line.text,
    }
}

fn is_marked(byte: u8) -> bool
    ensures { result ≡ spec.is_marked byte }
{
    byte == b'/' || byte == b'\\'
}

fn width(byte: u8) -> usize
    ensures value { result ≡ spec.width byte }
    ensures small { result ≤ 2 }
{
    if is_marked(byte) { 2 } else { 1 }
}

fn is_continuation(byte: u8) -> bool
    ensures { result ≡ continues_character byte }
{
    128 <= byte && byte < 192
}

/// A search of so many bytes with one more byte of the line; from 96 on they are not counted.
fn search_length(length: usize, byte: u8) -> usize
    ensures { result ≡ spec.search_length length byte }
{
    if length < 96 {
        length + width(byte)
    } else {
        length
    }
}

/// Whether a byte of the line is searched for, behind a search of so many bytes: where a character begins, that has to
/// have room.
fn is_searched(length: usize, byte: u8) -> bool
    ensures { result ≡ spec.is_searched length byte }
{
    length < 96 || is_continuation(byte)
}

/// How many bytes of a line are searched for: characters, until the search has 96 bytes.
#[tactic(auto, using(crate::proofs::Searches::size_more, crate::proofs::Searches::size_stop))]
fn searched_size(line: &[u8]) -> usize
    ensures { result ≡ spec.searched_size 0 line.now }
{
    let mut size = 0;
    let mut length = 0;
    for byte in line {
        if !is_searched(length, *byte) {
            return size;
        }
        length = search_length(length, *byte);
        size += 1;
    }
    size
}

/// Adds a character of a search.
fn push_searched_char(c: char, out: &mut String) -> Result<(), AllocError>
    ensures { OnOk result (string_bytes out.new ≡ string_bytes out.old ++ spec.searched_char c) }
{
    match c {
        '/' | '\\' => {
            out.push_str("\\")?;
            out.push(c)
        }
        _ => out.push(c),
    }
}

fn push_searched(text: &str, out: &mut String) -> Result<(), AllocError>
    ensures { OnOk result (string_bytes out.new ≡ string_bytes out.old ++ spec.searched_text text.now) }
{
    for c in text.chars() {
        push_searched_char(c, out)?;
    }
    Ok(())
}

/// Adds what is searched for; a `$` at its end would be the end of the line.
fn push_search_text(text: &str, out: &mut String) -> Result<(), AllocError>
    ensures { OnOk result (string_bytes out.new ≡ string_bytes out.old ++ spec.search_text text.now) }
{
    match before_last(text, '$') {
        Some(front) => {
            push_searched(front, out)?;
            out.push_str("\\$")
        }
        None => push_searched(text, out),
    }
}

/// The end of a search for a line that a line feed ends or not, and of which all is searched for or not.
fn search_end(is_ended: bool, is_whole: bool) -> &'static str
    ensures { result.now ≡ spec.search_end is_ended is_whole }
{
    if is_ended && is_whole { "$/" } else { "/" }
}

fn push_line_search(line: Line<'_>, out: &mut String) -> Result<(), AllocError>
    ensures { OnOk result (string_bytes out.new ≡ string_bytes out.old
        ++ spec.line_search (line_view line.entry)) }
{
    let text = without_return(line);
    let size = searched_size(text.as_bytes());
    let range = TextRange {
        start: 0,
        end: size,
    };
    out.push_str("/^")?;
    push_search_text(text_at(text, range), out)?;
    out.push_str(search_end(line.behind.is_some(), size == text.len()))
}
