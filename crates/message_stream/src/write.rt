//! Writing messages.
ghost use Rattle.std.specs.Prelude.{◌++◌, ◌∷◌, []};
ghost use Rattle.message_stream.specs.Exchanged.{HasWritten};
ghost use Rattle.message_stream.specs.Headers.{length_header, with_header, length_line};
ghost use Rattle.message_stream.specs.Lines.{with_feed};

use crate::error::StreamError;
use itoa::Buffer;
use std::io::{ErrorKind, Write};

pub(crate) const MOST_WRITES: u64 = u64::MAX;

// The whole text, or after a failed write a beginning of it.
fn write_whole<W: Write>(output: &mut W, text: &[u8]) -> Result<(), StreamError>
    ensures { HasWritten result (W.contents output.old) (W.contents output.new) text.now }
{
    let mut rest = text;
    for _turn in 0..MOST_WRITES {
        if rest.is_empty() {
            return Ok(());
        }
        match output.write(rest) {
            Ok(0) => return Err(StreamError::Write),
            Ok(count) => rest = &rest[count..],
            Err(e) => {
                if e.kind() != ErrorKind::Interrupted {
                    return Err(StreamError::Write);
                }
            }
        }
    }
    Err(StreamError::Write)
}

// One text and then another, or after a failure a beginning of them.
fn write_both<W: Write>(output: &mut W, first: &[u8], second: &[u8]) -> Result<(), StreamError>
    ensures { HasWritten result (W.contents output.old) (W.contents output.new)
        (first.now ++ second.now) }
{
    write_whole(output, first)?;
    write_whole(output, second)
}

// The text and a line feed, flushed, or after a failure a beginning of them.
pub(crate) fn write_line<W: Write>(output: &mut W, text: &[u8]) -> Result<(), StreamError>
    ensures { HasWritten result (W.contents output.old) (W.contents output.new) (with_feed text.now) }
{
    write_both(output, text, b"\n")?;
    if output.flush().is_err() {
        return Err(StreamError::Write);
    }
    Ok(())
}

// The digits of a length, and what ends a header.
fn write_digits<W: Write>(output: &mut W, length: usize) -> Result<(), StreamError>
    ensures { HasWritten result (W.contents output.old) (W.contents output.new) (length_line length) }
{
    let mut buffer = Buffer::new();
    let digits = buffer.format(length);
    write_both(output, digits.as_bytes(), b"\r\n\r\n")
}

fn write_header<W: Write>(output: &mut W, length: usize) -> Result<(), StreamError>
    ensures { HasWritten result (W.contents output.old) (W.contents output.new) (length_header length) }
{
    write_whole(output, b"Content-Length: ")?;
    write_digits(output, length)
}

// A text behind a header, flushed, or after a failure a beginning of them.
pub(crate) fn write_headed<W: Write>(output: &mut W, text: &[u8]) -> Result<(), StreamError>
    ensures { HasWritten result (W.contents output.old) (W.contents output.new) (with_header text.now) }
{
    write_header(output, text.len())?;
    write_whole(output, text)?;
    if output.flush().is_err() {
        return Err(StreamError::Write);
    }
    Ok(())
}
