//! Lines of imports that repeat an earlier one.
ghost use Rattle.std.specs.Prelude.{◌≡◌, ◌++◌, IfOk, OnOk, map, string_bytes};
ghost use Rattle.list_forms.specs.Colors.{bold_code, colored_text, faint_code};
ghost use Rattle.source_imports.specs.Repeated as spec;
ghost use Rattle.source_imports.specs.Views.{repeated_import_view};
ghost use Rattle.source_rows.specs.Places.{item_place};

use crate::repeated::RepeatedImport;
use list_forms::{BOLD, FAINT, USUAL, push_color, push_colored};
use source_listing::push_spot;
use source_rows::Spot;
use std::alloc::{AllocError, Global};

/// Where something stands, with nothing behind it.
fn push_spot_alone(path: &str, spot: Option<Spot>, out: &mut String) -> Result<(), AllocError>
    ensures { OnOk result (string_bytes out.new ≡ string_bytes out.old
        ++ spec.spot_text path.now spot) }
{
    match spot {
        Some(spot) => {
            let (line, column) = (spot.position.line, spot.position.column);
            write!(out, "{path}:{line}:{column}")
        }
        None => out.push_str(path),
    }
}

/// Where something stands: in colour, faint.
#[tactic(auto, unfolding(list_forms::specs::Colors::colored_text))]
fn push_stand(
    is_colored: bool,
    path: &str,
    spot: Option<Spot>,
    out: &mut String,
) -> Result<(), AllocError>
    ensures { OnOk result (string_bytes out.new ≡ string_bytes out.old
        ++ colored_text is_colored faint_code (item_place path.now spot)) }
{
    push_color(is_colored, FAINT, out)?;
    push_spot(path, spot, out)?;
    push_color(is_colored, USUAL, out)
}

fn push_repeat(
    is_colored: bool,
    path: &str,
    repeat: &RepeatedImport,
    out: &mut String,
) -> Result<(), AllocError>
    ensures { let line = spec.repeat_line is_colored path.now (repeated_import_view repeat.now) in
        OnOk result (string_bytes out.new ≡ string_bytes out.old ++ line) }
{
    push_stand(is_colored, path, repeat.spot, out)?;
    push_colored(is_colored, BOLD, &repeat.text, out)?;
    out.push_str(" (again, first at ")?;
    push_spot_alone(path, repeat.first, out)?;
    out.push_str(")\n")
}

/// A line for each import that repeats an earlier one: file, line and column of its own use tree, the import as a use
/// of it alone would be written, and where the first that is written so stands. In colour, places are faint and
/// imports bold.
///
/// # Errors
///
/// Only if memory runs out.
pub fn repeat_lines(
    alloc: Global,
    path: &str,
    repeats: &[RepeatedImport],
    is_colored: bool,
) -> Result<String, AllocError>
    ensures { let lines = spec.repeat_lines is_colored path.now (map repeated_import_view repeats.now) in
        IfOk result (λ text. string_bytes text ≡ lines) }
{
    let mut out = String::new(alloc);
    for repeat in repeats {
        push_repeat(is_colored, path, repeat, &mut out)?;
    }
    Ok(out)
}
