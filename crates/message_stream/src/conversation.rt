//! A conversation over a reader and a writer.
ghost use Rattle.std.specs.Prelude.{ℕ, flat_map, map, string_bytes};
ghost use Rattle.std.specs.Io.Buffered.{reader_buffer, reader_remaining};
ghost use Rattle.message_stream.specs.Answers.{answer_texts};
ghost use Rattle.message_stream.specs.Exchanged.{HasWritten};
ghost use Rattle.message_stream.specs.Inner.{HasAnswered, HasRested, HasTurned};
ghost use Rattle.message_stream.specs.Served.{HasServed};

use crate::error::StreamError;
use crate::framing::{Framing, Next};
use crate::message::Message;
use crate::service::{Answer, Service};
use std::alloc::Global;
use std::io::{BufReader, Read, Write};

pub(crate) const MOST_TURNS: u64 = u64::MAX;

// The texts, each as a message, or after a failure a beginning of them.
fn write_texts<F: Framing, W: Write>(
    framing: &F,
    output: &mut W,
    texts: &[String],
) -> Result<(), StreamError>
    ensures { HasWritten result (W.contents output.old) (W.contents output.new)
        (flat_map F.frames.framed (map string_bytes texts.now)) }
{
    for text in texts {
        framing.write(output, text.as_bytes())?;
    }
    Ok(())
}

fn write_answer<F: Framing, W: Write>(
    framing: &F,
    output: &mut W,
    answer: &Answer,
) -> Result<(), StreamError>
    ensures { HasWritten result (W.contents output.old) (W.contents output.new)
        (flat_map F.frames.framed (answer_texts answer.now)) }
{
    match answer {
        Answer::Made(text) => framing.write(output, text.as_bytes()),
        Answer::Fixed(text) => framing.write(output, text.as_bytes()),
        Answer::Several(texts) => write_texts(framing, output, texts),
    }
}

fn answer_message<F: Framing, W: Write, S: Service>(
    alloc: Global,
    framing: &F,
    output: &mut W,
    service: &mut S,
    message: Message,
) -> Result<(), StreamError>
    ensures { HasAnswered F.frames S.conduct.Answers result service.old message service.new
        (W.contents output.old) (W.contents output.new) }
{
    let answer = service.answer(alloc, message);
    write_answer(framing, output, &answer)
}

fn rest_service<F: Framing, W: Write, S: Service>(
    alloc: Global,
    framing: &F,
    output: &mut W,
    service: &mut S,
) -> Result<(), StreamError>
    ensures { HasRested F.frames S.conduct.Rests result service.old service.new
        (W.contents output.old) (W.contents output.new) }
{
    let told = service.rest(alloc);
    write_answer(framing, output, &told)
}

// One turn: whether the end of the reader has ended a message by then, or nothing where the conversation ends.
fn take_turn<F: Framing, R: Read, W: Write, S: Service>(
    alloc: Global,
    framing: &F,
    input: &mut BufReader<R>,
    output: &mut W,
    service: &mut S,
    is_ended: bool,
) -> Result<Option<bool>, StreamError>
    ensures { (count : ℕ) → HasTurned F.frames S.conduct (reader_remaining R.remaining) reader_buffer count result
        service.old service.new is_ended input.old input.new (W.contents output.old) (W.contents output.new) }
{
    if service.is_over() {
        return Ok(None);
    }
    if !service.is_rested() && input.buffer().is_empty() {
        rest_service(alloc, framing, output, service)?;
        return Ok(Some(is_ended));
    }
    if is_ended {
        return Ok(None);
    }
    match framing.next(alloc, input)? {
        Next::Message { message, is_last } => {
            answer_message(alloc, framing, output, service, message)?;
            Ok(Some(is_last))
        }
        Next::Nothing => Ok(None),
    }
}

/// Answers each message of `input` on `output`, by messages that are written whole and flushed before the next one is
/// read, up to the end of `input`, or until `service` is over. Where something is left to tell and the buffer of
/// `input` is empty, `service` rests before more is read. Behind a message that the end of `input` ends nothing more is
/// read.
///
/// A message for which there is no memory, or that is too long, is passed over, and `service` is told so. After `Write`
/// all that was told but for the last message or rest is on `output`, and of that there is a beginning; after each
/// other error each whole message that was read has its answer there.
///
/// At most 2^64 - 1 times a message is read or `service` rests. A message is read by at most as many reads, and a text
/// written by at most as many writes (law `limits`): a reader or a writer that takes more is answered as one that
/// failed. The clause speaks of the bytes of a reader and a writer that tell them: of another reader it says that there
/// are such bytes, of another writer nothing. That an answer is flushed no clause can say.
pub fn serve<F: Framing, R: Read, W: Write, S: Service>(
    alloc: Global,
    framing: &F,
    input: &mut BufReader<R>,
    output: &mut W,
    service: &mut S,
) -> Result<(), StreamError>
    ensures { HasServed F.frames S.conduct (reader_remaining R.remaining) reader_buffer result service.old
        service.new input.old input.new (W.contents output.old) (W.contents output.new) }
{
    let mut is_ended = false;
    for _turn in 0..MOST_TURNS {
        match take_turn(alloc, framing, input, output, service, is_ended)? {
            Some(ended) => is_ended = ended,
            None => return Ok(()),
        }
    }
    Err(StreamError::Read)
}
