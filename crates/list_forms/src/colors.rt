//! Texts in colours of a terminal.
ghost use Rattle.std.specs.Io.{StartsWith};
ghost use Rattle.std.specs.Prelude.{◌≡◌, ◌++◌, OnOk, string_bytes};
ghost use Rattle.list_forms.specs.Colors as spec;

use std::alloc::AllocError;

/// After each of these a terminal writes so.
pub const FAINT: &str = "\x1b[2m";

pub const RED: &str = "\x1b[31m";

pub const GREEN: &str = "\x1b[32m";

pub const YELLOW: &str = "\x1b[33m";

pub const CYAN: &str = "\x1b[36m";

pub const BOLD: &str = "\x1b[1m";

pub const USUAL: &str = "\x1b[0m";

/// Adds what makes a terminal write so, if colours are wanted.
///
/// # Errors
///
/// Only if memory runs out. A part of it may then be added.
#[tactic(auto, using(crate::proofs::StartingTexts::longer, crate::proofs::StartingTexts::itself))]
pub fn push_color(is_colored: bool, color: &str, out: &mut String) -> Result<(), AllocError>
    ensures text { OnOk result (string_bytes out.new ≡ string_bytes out.old
        ++ spec.sequence is_colored color.now) }
    ensures longer { StartsWith (string_bytes out.new) (string_bytes out.old) }
{
    if !is_colored {
        return Ok(());
    }
    out.push_str(color)
}

/// Adds a text, in a colour if colours are wanted.
///
/// # Errors
///
/// Only if memory runs out. A part of it may then be added.
#[tactic(auto, using(crate::proofs::StartingTexts::longer, crate::proofs::StartingTexts::joined), unfolding(crate::specs::Colors::colored_text))]
pub fn push_colored(
    is_colored: bool,
    color: &str,
    text: &str,
    out: &mut String,
) -> Result<(), AllocError>
    ensures text { let text = spec.colored_text is_colored color.now text.now in
        OnOk result (string_bytes out.new ≡ string_bytes out.old ++ text) }
    ensures longer { StartsWith (string_bytes out.new) (string_bytes out.old) }
{
    push_color(is_colored, color, out)?;
    out.push_str(text)?;
    push_color(is_colored, USUAL, out)
}
