//! A run over a reader and a writer.
ghost use Rattle.item_tree_request.specs.Outputs.{AreFixed, IsPrinted};
ghost use Rattle.item_tree_request.specs.Runs.{HasRun};

use crate::answer::answer;
use crate::error::RunError;
use crate::show::Pages;
use crate::show_writer::ShowWriter;
use crate::stream::{read_to_end, write_whole};
use std::alloc::Global;
use std::io::{Read, Write};

/// Reads a request in JSON up to the reader's end, makes its edits, and writes what `writer` has of its shows.
///
/// After any error but `Write` nothing was written, and after `Write` a beginning of the output was, but not all of it.
/// At most 16,777,216 reads are made, each with room for 4,096 bytes, and none after one that failed; a reader that has
/// told no end by then is answered as one that failed. Of the reads the clause says that they gave no more than
/// 16,777,215 full rooms, and nothing of a reader or a writer that does not tell its bytes.
pub fn run_with<T: ShowWriter, R: Read, W: Write>(
    alloc: Global,
    writer: &T,
    input: &mut R,
    output: &mut W,
) -> Result<(), RunError>
    ensures run { HasRun T.is_text result (R.remaining input.old) (R.remaining input.new)
        (W.contents output.old) (W.contents output.new) }
    ensures fixed { AreFixed T.is_text }
{
    T::are_fixed();
    let bytes = read_to_end(alloc, input)?;
    let text = answer(alloc, writer, &bytes)?;
    write_whole(output, text.as_bytes())?;
    Ok(())
}

/// Reads a request in JSON up to the reader's end, makes its edits, and writes the pages and imports of its shows.
///
/// # Errors
///
/// Those of `run_with`.
pub fn run<R: Read, W: Write>(alloc: Global, input: &mut R, output: &mut W) -> Result<(), RunError>
    ensures run { HasRun IsPrinted result (R.remaining input.old) (R.remaining input.new)
        (W.contents output.old) (W.contents output.new) }
    ensures fixed { AreFixed IsPrinted }
{
    run_with(alloc, &Pages, input, output)
}
