//! A run over a reader and a writer that writes outlines.
ghost use Rattle.item_tree_request.specs.Outputs.{AreFixed};
ghost use Rattle.item_tree_request.specs.Runs.{HasRun};
ghost use Rattle.item_tree_tool.specs.Outlines.{IsOutlined};

use crate::outlines::Outlines;
use item_tree_request::{RunError, run_with};
use std::alloc::Global;
use std::io::{Read, Write};

/// Reads a request in JSON up to the reader's end, makes its edits, and writes the outlines of its shows.
///
/// # Errors
///
/// Those of `item_tree_request::run_with`.
pub fn run_outlines<R: Read, W: Write>(
    alloc: Global,
    input: &mut R,
    output: &mut W,
) -> Result<(), RunError>
    ensures run { HasRun IsOutlined result (R.remaining input.old) (R.remaining input.new)
        (W.contents output.old) (W.contents output.new) }
    ensures fixed { AreFixed IsOutlined }
{
    run_with(alloc, &Outlines, input, output)
}
