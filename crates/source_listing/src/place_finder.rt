//! Where the items and the use trees of a text stand.
ghost use Rattle.std.specs.Prelude.{◌≡◌, option_map};
ghost use Rattle.line_index.specs.Positions.{position_in};
ghost use Rattle.source_rows.specs.Places.{AreDistinct, place_of, spot_in};
ghost use Rattle.source_listing.specs.Uses as spec;
ghost use Rattle.source_listing.specs.Views.{placed_trees_view};

use crate::use_places::UsePlaces;
use crate::uses::UseTrees;
use hir_input::FileAstId;
use item_tree::UseTreeIdx;
use line_index::{Position, Units};
use rust_items::ItemPlace;
use source_rows::{Finder, Spot};
use std::marker::Model;

/// Where the items and the use trees of a text stand. Items are found by their ids; those that are asked for in the
/// order of the text cost one pass over it in all.
#[derive(Drop)]
pub struct PlaceFinder<'a> {
    finder: Finder<'a>,
    uses: UsePlaces<'a>,
}

impl<'a> Model for PlaceFinder<'a> {
    ghost use Rattle.source_listing.specs.Codes.{placed_text_code};
    ghost use Rattle.source_listing.specs.Uses.{PlacedText, file_places, with_places};
    ghost use Rattle.source_rows.specs.Places.{AreDistinct};

    ghost Value = { PlacedText };

    ghost coded = { placed_text_code };

    ghost view = { λ f. with_places f.finder.lines (file_places f.finder.places f.uses) };

    ghost invariant = { λ f. AreDistinct f.finder.places };
}

impl<'a> PlaceFinder<'a> {
    /// Finds what stands in a text, by the places that its reader gave.
    pub fn new(text: &'a str, places: &'a [ItemPlace], use_trees: &'a [usize]) -> Self
        requires { AreDistinct places.now }
        ensures { result ≡ spec.with_places text.now (spec.file_places places.now use_trees.now) }
    {
        PlaceFinder {
            finder: Finder::new(text, places),
            uses: UsePlaces::new(use_trees),
        }
    }

    /// The place of the item of an id.
    pub fn place(&mut self, id: FileAstId) -> Option<ItemPlace>
        ensures place { result ≡ place_of id self.old.places.items }
        ensures same { self.new ≡ self.old }
    {
        self.finder.places.find(id)
    }

    /// The line of a byte, and its column, which counts these units.
    pub fn position(&mut self, units: Units, at: usize) -> Position
        ensures position { result ≡ position_in units self.old.text at }
        ensures same { self.new ≡ self.old }
    {
        self.finder.lines.position_in(units, at)
    }

    /// Where an item stands: at its name, or where it begins.
    pub fn spot(&mut self, units: Units, place: Option<ItemPlace>) -> Option<Spot>
        ensures spot { result ≡ option_map (spot_in units self.old.text) place }
        ensures same { self.new ≡ self.old }
    {
        self.finder.spot_in(units, place)
    }

    /// The use trees of an item that stands there.
    pub fn trees(&mut self, place: Option<ItemPlace>) -> Option<UseTrees<'a>>
        ensures trees { let trees = option_map (spec.use_trees_at self.old.places.use_trees) place in
            option_map placed_trees_view result ≡ trees }
        ensures same { self.new ≡ self.old }
    {
        self.uses.trees(place)
    }

    /// Those of the item of an id.
    pub fn trees_of(&mut self, id: FileAstId) -> Option<UseTrees<'a>>
        ensures trees { let places = self.old.places in
            let trees = option_map (spec.use_trees_at places.use_trees) (place_of id places.items) in
            option_map placed_trees_view result ≡ trees }
        ensures same { self.new ≡ self.old }
    {
        let place = self.place(id);
        self.trees(place)
    }

    /// Where the use tree of a number stands.
    pub fn tree_spot(
        &mut self,
        units: Units,
        trees: Option<UseTrees<'_>>,
        index: UseTreeIdx,
    ) -> Option<Spot>
        ensures spot { result ≡ spec.tree_spots_in units self.old.text
            (option_map placed_trees_view trees.entry) index.0 }
        ensures same { self.new ≡ self.old }
    {
        match trees {
            Some(trees) => Some(Spot {
                position: self.position(units, trees.start(index.0 as usize)),
                range: trees.place.range,
            }),
            None => None,
        }
    }
}
