//! How messages stand among bytes.
use crate::error::StreamError;
use crate::message::Message;
use std::alloc::Global;
use std::io::{BufRead, Write};

/// What a reader has next.
#[derive(Debug, Drop)]
pub enum Next {
    /// A message, and whether it is the last one, which the end of the reader ends.
    Message { message: Message, is_last: bool },
    /// Nothing: the reader is at its end.
    Nothing,
}

/// How messages stand among bytes.
pub trait Framing {
    ghost use Rattle.message_stream.specs.Frames.{Frames};
    ghost use Rattle.message_stream.specs.Exchanged.{HasRead, HasWritten};

    // What messages are among bytes, and why reading one fails.
    ghost frames: { Frames };

    /// What a reader has next. Reads that a signal interrupts are made again.
    ///
    /// # Errors
    ///
    /// Those of the framing; then a part of a message was read.
    fn next<R: BufRead>(&self, alloc: Global, input: &mut R) -> Result<Next, StreamError>
        ensures { HasRead frames (R.remaining input.old) (R.remaining input.new) result };

    /// Writes a text as a message, and flushes it. Writes that a signal interrupts are made again.
    ///
    /// # Errors
    ///
    /// `Write`; then a beginning of the message was written.
    fn write<W: Write>(&self, output: &mut W, text: &[u8]) -> Result<(), StreamError>
        ensures { HasWritten result (W.contents output.old) (W.contents output.new)
            (frames.framed text.now) };
}
