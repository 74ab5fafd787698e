//! Where imports are written.
ghost use Rattle.std.specs.Prelude.{◌≡◌, option_map};
ghost use Rattle.source_listing.specs.Views.{placed_trees_view};
ghost use Rattle.source_listing.specs.Uses as spec;

use crate::use_places::UsePlaces;
use rust_items::ItemPlace;
use source_rows::stands_at;

/// A use item's place, and where its use trees begin, by their numbers.
#[derive(Clone, Copy)]
pub struct UseTrees<'a> {
    pub place: ItemPlace,
    pub starts: &'a [usize],
}

impl UseTrees<'_> {
    /// Where the use tree of a number begins.
    pub fn start(self, index: usize) -> usize
        ensures { result ≡ spec.tree_start index (placed_trees_view self.entry) }
    {
        let start = self.starts.get(index).copied();
        start.unwrap_or(stands_at(self.place))
    }
}

impl<'a> UsePlaces<'a> {
    /// The use trees of an item that stands there.
    pub fn trees(&mut self, place: Option<ItemPlace>) -> Option<UseTrees<'a>>
        ensures trees { let trees = option_map (spec.use_trees_at self.old) place in
            option_map placed_trees_view result ≡ trees }
        ensures same { self.new ≡ self.old }
    {
        match place {
            Some(place) => {
                let starts = self.find(place.range.start);
                Some(UseTrees { place, starts })
            }
            None => None,
        }
    }
}
