//! Places of items by their ids.
ghost use Rattle.std.specs.Prelude.{◌≡◌, ◌≤◌, length};
ghost use Rattle.source_rows.specs.Ends.{IsEndOf};
ghost use Rattle.source_rows.specs.Places as spec;

use hir_input::FileAstId;
use rust_items::ItemPlace;
use std::marker::Model;

/// The places of a file's items, to be found by their ids. It goes on from the one that was found last, so that ids in
/// the order of the places cost one pass over them in all.
#[derive(Drop)]
pub struct Places<'a> {
    all: &'a [ItemPlace],
    left: &'a [ItemPlace],
}

impl<'a> Model for Places<'a> {
    ghost use Rattle.std.specs.Prelude.{List};
    ghost use Rattle.rust_items.specs.declared.source_file.ItemPlace.{ItemPlace};
    ghost use Rattle.source_rows.specs.Ends.{IsEndOf};

    ghost Value = { List ItemPlace };

    ghost view = { λ p. p.all.now };

    ghost invariant = { λ p. IsEndOf p.left.now p.all.now };
}

#[tactic(auto, using(crate::proofs::ItemPlaces::same_id))]
fn is_id(id: FileAstId, other: FileAstId) -> bool
    ensures { result ≡ spec.is_id id other }
{
    id == other
}

/// The first place of an id, and the places behind it.
#[tactic(auto, using(crate::proofs::ItemPlaces::end_itself, crate::proofs::ItemPlaces::end_shorter))]
fn first_of(places: &[ItemPlace], id: FileAstId) -> (Option<ItemPlace>, &[ItemPlace])
    ensures value { result.0 ≡ spec.place_of id places.now }
    ensures rest { IsEndOf result.1.now places.now }
{
    let mut left = places;
    while let [place, rest @ ..] = left {
        left = rest;
        if is_id(id, place.id) {
            return (Some(*place), left);
        }
    }
    (None, left)
}

/// The place of an id among these, of which there is only one. It is looked for first from this one of them on.
#[tactic(auto, using(crate::proofs::ItemPlaces::end_dropped))]
pub(crate) fn place_from(all: &[ItemPlace], first: usize, id: FileAstId) -> Option<ItemPlace>
    requires within { first ≤ length all.now }
    requires distinct { spec.AreDistinct all.now }
    ensures { result ≡ spec.place_of id all.now }
{
    let mut places = Places {
        all,
        left: &all[first..],
    };
    places.find(id)
}

impl<'a> Places<'a> {
    /// Those of a file.
    #[tactic(auto, using(crate::proofs::ItemPlaces::end_itself))]
    pub fn new(all: &'a [ItemPlace]) -> Self
        ensures { result ≡ all.now }
    {
        Places { all, left: all }
    }

    /// The place of an id, of which there is only one.
    #[tactic(auto, using(crate::proofs::ItemPlaces::found_later))]
    pub fn find(&mut self, id: FileAstId) -> Option<ItemPlace>
        requires { spec.AreDistinct self.old }
        ensures value { result ≡ spec.place_of id self.old }
        ensures same { self.new ≡ self.old }
    {
        let (found, left) = first_of(self.left, id);
        if found.is_some() {
            self.left = left;
            return found;
        }
        let (found, left) = first_of(self.all, id);
        self.left = left;
        found
    }
}
