//! The mended text that is read of a file.
ghost use Rattle.source_rows.specs.Places.{AreDistinct};

use rust_items::ItemPlace;
use rust_mended::Mended;

/// The mended text that is read of a file, and where the items that are read of it stand in that text.
#[derive(Drop)]
pub struct MendedFile {
    pub mended: Mended,
    pub items: Vec<ItemPlace>,
    ghost distinct: { AreDistinct items.items },
}
