//! Reading a reader to its end, and writing a whole text.
ghost use Rattle.std.specs.Prelude.{◌≡◌, ◌⊎◌, IfOk, IfErr};
ghost use Rattle.std.specs.Io.KnownBytes.{Appends};
ghost use Rattle.item_tree_request.specs.declared.error.RunError.{RunError};
ghost use Rattle.item_tree_request.specs.Streams.{IsReadToEnd, TakesOnlyBeginning};

use crate::error::RunError;
use std::alloc::Global;
use std::io::{Read, Write};

const ROOM: usize = 4096;

const MOST_READS: u32 = 16_777_216;

// All that the reader gives up to its end.
pub(crate) fn read_to_end<R: Read>(alloc: Global, input: &mut R) -> Result<Vec<u8>, RunError>
    ensures ok { IfOk result
        (λ bytes. IsReadToEnd (R.remaining input.old) (R.remaining input.new) bytes.items) }
    ensures err { IfErr result (λ e. (e ≡ RunError.Read) ⊎ (e ≡ RunError.OutOfMemory)) }
{
    let mut bytes = Vec::new(alloc);
    let mut room = [0u8; ROOM];
    for _reads in 0..MOST_READS {
        match input.read(&mut room) {
            Ok(0) => return Ok(bytes),
            Ok(count) => {
                if bytes.extend_from_slice(&room[..count]).is_err() {
                    return Err(RunError::OutOfMemory);
                }
            }
            Err(_) => return Err(RunError::Read),
        }
    }
    Err(RunError::Read)
}

// The whole text, or after a failed write a beginning of it.
pub(crate) fn write_whole<W: Write>(output: &mut W, text: &[u8]) -> Result<(), RunError>
    ensures ok { IfOk result
        (λ _. Appends (W.contents output.old) (W.contents output.new) text.now) }
    ensures err { let IsBegun = TakesOnlyBeginning (W.contents output.old)
        (W.contents output.new) text.now in
        IfErr result (λ e. (e ≡ RunError.Write) × IsBegun) }
{
    let mut rest = text;
    while !rest.is_empty() {
        match output.write(rest) {
            Ok(0) | Err(_) => return Err(RunError::Write),
            Ok(count) => rest = &rest[count..],
        }
    }
    Ok(())
}
