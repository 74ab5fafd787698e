//! Messages behind headers that say how long they are.
ghost use Rattle.std.specs.Prelude.{[], ◌<◌, ◌≤◌, MatchResult};
ghost use Rattle.message_stream.specs.Exchanged.{HasRead};
ghost use Rattle.message_stream.specs.Headers.{header_frames};
ghost use Rattle.message_stream.specs.Inner.{HasReadBody, HasReadHeader, IsBodyFault, IsBodySoFar, IsEndOfHeader};
ghost use Rattle.message_stream.specs.Inner.{IsHeaderPart, IsPassing, IsPiece};

use crate::error::StreamError;
use crate::framing::{Framing, Next};
use crate::lines::{Ending, MOST_READS, first_part};
use crate::message::{MOST_MESSAGE, Message};
use crate::sections::{HeaderState, MOST_HEADER, state_of};
use crate::write::write_headed;
use std::alloc::Global;
use std::io::{BufRead, ErrorKind, Write};

// What is read of a header.
#[derive(Drop)]
enum Head {
    // How many bytes the message has.
    Length(usize),
    // Nothing, at the end of the reader.
    Nothing,
}

// Reads on in a header, up to the end of a line at most.
fn read_line_of<R: BufRead>(input: &mut R, header: &mut Vec<u8>) -> Result<Ending, StreamError>
    ensures { MatchResult result
        (λ ending. IsHeaderPart (R.remaining input.old) (R.remaining input.new) header.old.items
        header.new.items ending)
        (IsPassing (R.remaining input.old) (R.remaining input.new)) }
{
    let shown = match input.fill_buf() {
        Ok(shown) => shown,
        Err(e) => {
            return if e.kind() == ErrorKind::Interrupted {
                Ok(Ending::Shown)
            } else {
                Err(StreamError::Read)
            };
        }
    };
    let part = first_part(shown);
    let extended = header.extend_from_slice(&shown[..part.through]);
    input.consume(part.through);
    if extended.is_err() {
        return Err(StreamError::OutOfMemory);
    }
    Ok(part.ending)
}

// What the end of the reader leaves of a header.
fn end_of(header: &[u8]) -> Result<Head, StreamError>
    ensures { IsEndOfHeader header.now result }
{
    if header.is_empty() {
        return Ok(Head::Nothing);
    }
    Err(StreamError::Cut)
}

fn read_header<R: BufRead>(alloc: Global, input: &mut R) -> Result<Head, StreamError>
    ensures { HasReadHeader (R.remaining input.old) (R.remaining input.new) result }
{
    let mut header = Vec::new(alloc);
    for _turn in 0..MOST_READS {
        let ending = read_line_of(input, &mut header)?;
        if header.len() > MOST_HEADER {
            return Err(StreamError::Header);
        }
        match ending {
            Ending::Shown => {}
            Ending::Feed => match state_of(&header) {
                HeaderState::More => {}
                HeaderState::Length(length) => return Ok(Head::Length(length)),
                HeaderState::NoLength => return Err(StreamError::Length),
                HeaderState::Wrong => return Err(StreamError::Header),
            },
            Ending::End => return end_of(&header),
        }
    }
    Err(StreamError::Read)
}

// Reads on in a body, of which so many bytes are left, and tells how many are left then.
fn read_piece<R: BufRead>(
    input: &mut R,
    body: Message,
    left: usize,
) -> Result<(Message, usize), StreamError>
    requires { 0 < left }
    ensures { MatchResult result
        (λ r. IsPiece (R.remaining input.old) (R.remaining input.new) body left r.0 r.1)
        (IsBodyFault (R.remaining input.old) (R.remaining input.new) left) }
{
    let shown = match input.fill_buf() {
        Ok(shown) => shown,
        Err(e) => {
            return if e.kind() == ErrorKind::Interrupted {
                Ok((body, left))
            } else {
                Err(StreamError::Read)
            };
        }
    };
    let count = shown.len().min(left);
    let longer = body.with(&shown[..count]);
    input.consume(count);
    if count == 0 {
        return Err(StreamError::Cut);
    }
    Ok((longer, left - count))
}

// The body before any of its bytes is read.
fn unread_body(alloc: Global, length: usize) -> Message
    ensures { IsBodySoFar length [] result }
{
    if length > MOST_MESSAGE {
        return Message::TooLong;
    }
    Message::Whole(Vec::new(alloc))
}

fn read_body<R: BufRead>(
    alloc: Global,
    input: &mut R,
    length: usize,
) -> Result<Message, StreamError>
    ensures { HasReadBody (R.remaining input.old) (R.remaining input.new) length result }
{
    let mut body = unread_body(alloc, length);
    let mut left = length;
    for _turn in 0..MOST_READS {
        if left == 0 {
            return Ok(body);
        }
        let (longer, fewer) = read_piece(input, body, left)?;
        body = longer;
        left = fewer;
    }
    Err(StreamError::Read)
}

fn next_headed<R: BufRead>(alloc: Global, input: &mut R) -> Result<Next, StreamError>
    ensures { HasRead header_frames (R.remaining input.old) (R.remaining input.new) result }
{
    match read_header(alloc, input)? {
        Head::Length(length) => {
            let message = read_body(alloc, input, length)?;
            Ok(Next::Message {
                message,
                is_last: false,
            })
        }
        Head::Nothing => Ok(Next::Nothing),
    }
}

/// Messages behind headers, as the Language Server Protocol has them.
///
/// A message is a header, an empty line and a body, as long as the first field `Content-Length` of the header says,
/// whose name may be written in capitals; other fields are passed over. A body that is longer than `MOST_MESSAGE`, or
/// for which there is no memory, is passed over and told as such. Reading one fails with each error but `Write`.
#[derive(Clone, Copy, Debug)]
pub struct Headers;

impl Framing for Headers {
    ghost use Rattle.message_stream.specs.Headers.{header_frames};

    ghost frames = { header_frames };

    fn next<R: BufRead>(&self, alloc: Global, input: &mut R) -> Result<Next, StreamError> {
        next_headed(alloc, input)
    }

    fn write<W: Write>(&self, output: &mut W, text: &[u8]) -> Result<(), StreamError> {
        write_headed(output, text)
    }
}
