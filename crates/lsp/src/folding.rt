//! The ranges of a document that may be folded.
ghost use Rattle.std.specs.Prelude.{◌≡◌, ◌++◌, IfOk, OnOk, flat_map, map};
ghost use Rattle.serde_json.specs.View.{view};
ghost use Rattle.lsp.specs.Folding as spec;

use crate::parts::{Page, Part};
use crate::text::LinedText;
use line_index::Units;
use rust_paths::TextRange;
use serde_json::{Value, json};
use std::alloc::{AllocError, Global};

fn fold_range(part: Part) -> TextRange
    ensures { result ≡ spec.fold_range part }
{
    let start = part.name.unwrap_or(part.range).start;
    part.body.unwrap_or(TextRange {
        start,
        end: part.range.end,
    })
}

/// Adds the lines of a part, if they differ.
fn push_fold(
    alloc: Global,
    text: &LinedText,
    part: Part,
    values: &mut Vec<Value>,
) -> Result<(), AllocError>
    ensures { let more = spec.fold_data text.now part in
        OnOk result (map view values.new.items ≡ map view values.old.items ++ more) }
{
    let range = fold_range(part);
    let start = text.place(Units::Bytes, range.start).line;
    let end = text.place(Units::Bytes, range.end).line;
    if start < end {
        values.push(json!(in alloc; {"endLine": end, "startLine": start})?)?;
    }
    Ok(())
}

/// The lines that may be folded.
pub(crate) fn folds(alloc: Global, page: Page<'_>) -> Result<Vec<Value>, AllocError>
    ensures { let p = page.entry in
        IfOk result (λ values. map view values.items ≡ flat_map (spec.fold_data p.text.now) p.parts.now) }
{
    let mut values = Vec::new(alloc);
    for part in page.parts {
        push_fold(alloc, page.text, *part, &mut values)?;
    }
    Ok(values)
}
