//! Where items stand in a text.
ghost use Rattle.std.specs.Prelude.{◌≡◌, option_map};
ghost use Rattle.source_rows.specs.Finders.{IsFinderOf, IsSameFinder};
ghost use Rattle.source_rows.specs.Places as spec;

use crate::places::Places;
use line_index::{LineIndex, Position, Units};
use rust_items::ItemPlace;
use rust_paths::TextRange;

/// Where an item stands, and its bytes.
#[derive(Clone, Copy)]
pub struct Spot {
    pub position: Position,
    pub range: TextRange,
}

/// An item stands at its name, or where it begins.
pub fn stands_at(place: ItemPlace) -> usize
    ensures { result ≡ spec.stands_at place }
{
    match place.name {
        Some(name) => name.start,
        None => place.range.start,
    }
}

/// The same of one whose place may not be known.
pub fn stand_of(place: Option<ItemPlace>) -> Option<usize>
    ensures { result ≡ option_map spec.stands_at place }
{
    match place {
        Some(place) => Some(stands_at(place)),
        None => None,
    }
}

/// Where a text's items stand, to be found by their ids.
#[derive(Drop)]
pub struct Finder<'a> {
    pub lines: LineIndex<'a>,
    pub places: Places<'a>,
}

impl<'a> Finder<'a> {
    pub fn new(text: &'a str, places: &'a [ItemPlace]) -> Self
        ensures { IsFinderOf text.now places.now result }
    {
        Finder {
            lines: LineIndex::new(text),
            places: Places::new(places),
        }
    }

    /// Where an item stands: at its name, or where it begins.
    pub fn spot(&mut self, place: Option<ItemPlace>) -> Option<Spot>
        ensures spot { result ≡ option_map (spec.spot_at self.old.lines) place }
        ensures same { IsSameFinder self.old self.new }
    {
        self.spot_in(Units::Characters, place)
    }

    /// The same by a column of these units.
    pub fn spot_in(&mut self, units: Units, place: Option<ItemPlace>) -> Option<Spot>
        ensures spot { result ≡ option_map (spec.spot_in units self.old.lines) place }
        ensures same { IsSameFinder self.old self.new }
    {
        match place {
            Some(place) => Some(Spot {
                position: self.lines.position_in(units, stands_at(place)),
                range: place.range,
            }),
            None => None,
        }
    }
}
