//! Places in a text, and in the mended text that is read in its place.
ghost use Rattle.std.specs.Prelude.{◌≡◌, option_copied, option_map};
ghost use Rattle.source_rows.specs.Listed as spec;
ghost use Rattle.source_rows.specs.ListedViews.{closers_view};
ghost use Rattle.source_rows.specs.Places.{place_of};

use crate::mended_file::MendedFile;
use crate::places::place_from;
use rust_items::{ItemPlace, TextRange};

/// In the mended text, the item that stands there in the text as it is. It is looked for first where an item begins
/// that stands there.
pub(crate) fn read_item(mended: &MendedFile, told: ItemPlace) -> Option<ItemPlace>
    ensures { result ≡ place_of told.id mended.now.items.items }
{
    let start = told.range.start;
    let first = mended
        .items
        .partition_point(|item| mended.mended.place(item.range.start) < start);
    place_from(&mended.items, first, told.id)
}

/// In the text as it is, a place of the text that is read: of the mended one, where there is one.
pub(crate) fn told_place(mended: Option<&MendedFile>, at: usize) -> usize
    ensures { result ≡ spec.told_place (option_map closers_view (option_copied mended.entry)) at }
{
    match mended {
        Some(mended) => mended.mended.place(at),
        None => at,
    }
}

/// The same of a range.
pub(crate) fn told_range(mended: Option<&MendedFile>, range: TextRange) -> TextRange
    ensures { let closers = option_map closers_view (option_copied mended.entry) in
        result ≡ spec.told_range closers range }
{
    match mended {
        Some(mended) => TextRange {
            start: mended.mended.place(range.start),
            end: mended.mended.place(range.end),
        },
        None => range,
    }
}

/// The same of a range that may not be there.
pub(crate) fn told_some(mended: Option<&MendedFile>, range: Option<TextRange>) -> Option<TextRange>
    ensures { let closers = option_map closers_view (option_copied mended.entry) in
        result ≡ option_map (spec.told_range closers) range }
{
    match range {
        Some(range) => Some(told_range(mended, range)),
        None => None,
    }
}

/// In the text as it is, an item that stands there in the text that is read.
pub fn told_item(mended: Option<&MendedFile>, place: ItemPlace) -> ItemPlace
    ensures { result ≡ spec.told_item (option_map closers_view (option_copied mended.entry)) place }
{
    match mended {
        Some(mended) => ItemPlace {
            id: place.id,
            range: told_range(Some(mended), place.range),
            name: told_some(Some(mended), place.name),
            body: told_some(Some(mended), place.body),
        },
        None => place,
    }
}
