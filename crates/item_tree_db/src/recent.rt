//! Which places changed lately.
ghost use Rattle.std.specs.Prelude.{◌≡◌, ◌≢◌, [], ℕ, IfOk, IfSome};
ghost use Rattle.item_tree_db.specs.declared.place.Place.{Place as PlaceView};
ghost use Rattle.item_tree_db.specs.Inner.Recent.{HoldsNoted, IsNoted};

use crate::place::Place;
use std::alloc::{AllocError, Global};
use std::collections::BTreeSet;

/// Places by their greatest change numbers. Those under numbers up to `missing` may be left out: removals leave their
/// places out, and others do where memory runs out.
#[derive(Drop)]
pub struct Recent {
    places: BTreeSet<(u64, Place)>,
    missing: u64,
}

impl Recent {
    pub fn new(alloc: Global) -> Recent
        ensures { result.places.keys ≡ [] }
    {
        Recent {
            places: BTreeSet::new(alloc),
            missing: 0,
        }
    }

    /// The place stands under this number. Where no memory is left, it does not, and may be missing.
    pub fn note(&mut self, place: Place, number: u64)
        ensures noted { IsNoted self.new place number }
        ensures kept { (other : PlaceView) (n : ℕ) → IsNoted self.old other n
            → IsNoted self.new other n }
    {
        match self.places.insert((number, place)) {
            Ok(_) => {}
            Err(_) => self.missing = self.missing.max(number),
        }
    }

    /// It stood under another number before.
    pub fn renote(&mut self, place: Place, old: u64, number: u64)
        ensures noted { IsNoted self.new place number }
        ensures others { (other : PlaceView) (n : ℕ) → other ≢ place → IsNoted self.old other n
            → IsNoted self.new other n }
    {
        self.places.remove(&(old, place));
        self.note(place, number);
    }

    /// It stood under another number before, and may now be missing. Takes no memory.
    pub fn leave_out(&mut self, place: Place, old: u64, number: u64)
        ensures noted { IsNoted self.new place number }
        ensures others { (other : PlaceView) (n : ℕ) → other ≢ place → IsNoted self.old other n
            → IsNoted self.new other n }
    {
        self.places.remove(&(old, place));
        self.missing = self.missing.max(number);
    }

    /// The places under numbers above a bound: none where one may be missing.
    pub fn places_above(
        &self,
        alloc: Global,
        bound: u64,
    ) -> Result<Option<BTreeSet<Place>>, AllocError>
        ensures { IfOk result (λ found. IfSome found (λ places. HoldsNoted self.now bound places.keys)) }
    {
        if bound < self.missing {
            return Ok(None);
        }
        let mut places = BTreeSet::new(alloc);
        for noted in self.places.iter().rev() {
            let (number, place) = *noted;
            if number <= bound {
                return Ok(Some(places));
            }
            places.insert(place)?;
        }
        Ok(Some(places))
    }
}
