//! Lines of a page, pushed one after another.
ghost use Rattle.std.specs.Prelude.{◌≡◌, ◌*◌, ◌++◌, OnOk, replicate, string_bytes};
ghost use Rattle.item_tree.specs.Line.{text, blank, line_text, lines_text, lines_of_text};

use std::alloc::AllocError;

// Four spaces for each level.
pub(crate) fn push_indent(out: &mut String, level: usize) -> Result<(), AllocError>
    ensures { OnOk result (string_bytes out.new ≡ string_bytes out.old
        ++ replicate (4 * level) 32) }
{
    for _i in 0..level {
        out.push_str("    ")?;
    }
    Ok(())
}

pub(crate) fn push_line(out: &mut String, level: usize, line: &str) -> Result<(), AllocError>
    ensures { OnOk result (string_bytes out.new
        ≡ string_bytes out.old ++ line_text (text level line.now)) }
{
    push_indent(out, level)?;
    out.push_str(line)?;
    out.push('\n')
}

// The parts of a text between its line feeds, each as a line.
pub(crate) fn push_text(out: &mut String, level: usize, bytes: &str) -> Result<(), AllocError>
    ensures { OnOk result (string_bytes out.new
        ≡ string_bytes out.old ++ lines_text (lines_of_text level bytes.now)) }
{
    for part in bytes.split('\n') {
        push_line(out, level, part)?;
    }
    Ok(())
}

pub(crate) fn push_blank(out: &mut String) -> Result<(), AllocError>
    ensures { OnOk result (string_bytes out.new ≡ string_bytes out.old ++ line_text blank) }
{
    out.push('\n')
}
