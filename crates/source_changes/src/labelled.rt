//! Rows with their labels as keys.

ghost use Rattle.std.specs.Prelude.{◌≡◌, map, IfOk};
ghost use Rattle.source_changes.specs.Inner.{labelled_view, with_label};
ghost use Rattle.source_changes.specs.ChangeViews.{text_row_view};

use crate::matching::Keyed;
use crate::row_changes::Row;
use std::alloc::{AllocError, Global};

pub(crate) type Labelled<'a> = Keyed<&'a str, Row<'a>>;

/// The rows of a text, each with its label.
pub(crate) fn label_rows<'a>(
    alloc: Global,
    rows: &[Row<'a>],
) -> Result<Vec<Labelled<'a>>, AllocError>
    ensures { IfOk result (λ v. map labelled_view v.items
        ≡ map with_label (map text_row_view rows.now)) }
{
    let mut items = Vec::new(alloc);
    for row in rows {
        items.push(Keyed {
            key: row.part.label.as_str(),
            item: *row,
        })?;
    }
    Ok(items)
}
