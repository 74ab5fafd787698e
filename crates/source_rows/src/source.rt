//! A file, and its places as compilers write them.

ghost use Rattle.std.specs.Prelude.{◌≡◌, ◌++◌, OnOk, string_bytes};
ghost use Rattle.source_rows.specs.Sources.{BeginsWith, place_text};

use itoa::Buffer;
use line_index::Position;
use std::alloc::AllocError;

/// A file: its path as it is to be written, and its text.
#[derive(Clone, Copy)]
pub struct Source<'a> {
    pub path: &'a str,
    pub text: &'a str,
}

/// Adds file, line and column, as compilers write them.
///
/// # Errors
///
/// Only if memory runs out. A part of them may then be added.
#[tactic(auto, using(crate::proofs::GrowingTexts::longer, crate::proofs::GrowingTexts::itself))]
pub fn push_place(path: &str, position: Position, out: &mut String) -> Result<(), AllocError>
    ensures text { OnOk result (string_bytes out.new ≡ string_bytes out.old
        ++ place_text path.now position) }
    ensures longer { BeginsWith (string_bytes out.old) (string_bytes out.new) }
{
    out.push_str(path)?;
    out.push_str(":")?;
    out.push_str(Buffer::new().format(position.line))?;
    out.push_str(":")?;
    out.push_str(Buffer::new().format(position.column))?;
    out.push_str(": ")
}
