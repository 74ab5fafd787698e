//! Lines as messages.
ghost use Rattle.std.specs.Prelude.{◌≡◌, MatchResult};
ghost use Rattle.std.specs.Io.KnownBytes.{Keeps};
ghost use Rattle.message_stream.specs.declared.error.StreamError.{StreamError};
ghost use Rattle.message_stream.specs.Exchanged.{HasRead};
ghost use Rattle.message_stream.specs.Inner.{EndsLine, IsFirst, IsPart};
ghost use Rattle.message_stream.specs.Lines.{line_frames};

use crate::error::StreamError;
use crate::framing::{Framing, Next};
use crate::message::Message;
use crate::write::write_line;
use std::alloc::Global;
use std::io::{BufRead, ErrorKind, Write};

pub(crate) const MOST_READS: u64 = u64::MAX;

// What ends a part of a line.
#[derive(Drop)]
pub(crate) enum Ending {
    // No more bytes are shown now.
    Shown,
    // A line feed.
    Feed,
    // The end of the reader.
    End,
}

// The first part of what a reader shows.
#[derive(Drop)]
pub(crate) struct Part {
    // How many bytes it has.
    pub(crate) before: usize,
    // How many bytes it has with its line feed.
    pub(crate) through: usize,
    pub(crate) ending: Ending,
}

pub(crate) fn first_part(shown: &[u8]) -> Part
    ensures { IsFirst shown.now result }
{
    for (before, byte) in shown.iter().enumerate() {
        if *byte == b'\n' {
            return Part {
                before,
                through: before + 1,
                ending: Ending::Feed,
            };
        }
    }
    if shown.is_empty() {
        return Part {
            before: 0,
            through: 0,
            ending: Ending::End,
        };
    }
    Part {
        before: shown.len(),
        through: shown.len(),
        ending: Ending::Shown,
    }
}

// Reads on in a line, up to its end at most.
fn read_part<R: BufRead>(input: &mut R, line: Message) -> Result<(Message, Ending), StreamError>
    ensures { MatchResult result
        (λ r. IsPart (R.remaining input.old) (R.remaining input.new) line r.0 r.1)
        (λ e. (e ≡ StreamError.Read) × Keeps (R.remaining input.old) (R.remaining input.new)) }
{
    let shown = match input.fill_buf() {
        Ok(shown) => shown,
        Err(e) => {
            return if e.kind() == ErrorKind::Interrupted {
                Ok((line, Ending::Shown))
            } else {
                Err(StreamError::Read)
            };
        }
    };
    let part = first_part(shown);
    let line = line.with(&shown[..part.before]);
    input.consume(part.through);
    Ok((line, part.ending))
}

// The line that the end of the reader ends, or nothing, where nothing was read of it.
fn last_of(line: Message) -> Next
    ensures { EndsLine line result }
{
    if let Message::Whole(bytes) = &line {
        if bytes.is_empty() {
            return Next::Nothing;
        }
    }
    Next::Message {
        message: line,
        is_last: true,
    }
}

fn next_line<R: BufRead>(alloc: Global, input: &mut R) -> Result<Next, StreamError>
    ensures { HasRead line_frames (R.remaining input.old) (R.remaining input.new) result }
{
    let mut line = Message::Whole(Vec::new(alloc));
    for _turn in 0..MOST_READS {
        let (longer, ending) = read_part(input, line)?;
        line = longer;
        match ending {
            Ending::Shown => {}
            Ending::Feed => {
                return Ok(Next::Message {
                    message: line,
                    is_last: false,
                });
            }
            Ending::End => return Ok(last_of(line)),
        }
    }
    Err(StreamError::Read)
}

/// Lines, each without its line feed, which the last one may lack. Nothing after the last line feed is no line.
///
/// A line that is longer than `MOST_MESSAGE`, or for which there is no memory, is passed over up to its line feed, and
/// told as such. Reading one fails with `Read` alone.
#[derive(Clone, Copy, Debug)]
pub struct Lines;

impl Framing for Lines {
    ghost use Rattle.message_stream.specs.Lines.{line_frames};

    ghost frames = { line_frames };

    fn next<R: BufRead>(&self, alloc: Global, input: &mut R) -> Result<Next, StreamError> {
        next_line(alloc, input)
    }

    fn write<W: Write>(&self, output: &mut W, text: &[u8]) -> Result<(), StreamError> {
        write_line(output, text)
    }
}
