//! Where use trees begin.
ghost use Rattle.std.specs.Prelude.{◌≡◌};
ghost use Rattle.source_listing.specs.Uses as spec;

use std::marker::Model;

/// From the first place on that does not stand before another.
fn from_place(places: &[usize], start: usize) -> &[usize]
    ensures { result.now ≡ spec.from_place start places.now }
{
    let mut left = places;
    while let [first, rest @ ..] = left {
        if *first >= start {
            return left;
        }
        left = rest;
    }
    left
}

/// Where a file's use trees begin, to be found from the place of their item on. It goes on from the item that was asked
/// for last, so that items in the order of the text cost one pass over them in all.
#[derive(Drop)]
pub struct UsePlaces<'a> {
    all: &'a [usize],
    from: usize,
    left: &'a [usize],
}

impl<'a> Model for UsePlaces<'a> {
    ghost use Rattle.std.specs.Prelude.{ℕ, List, ◌≡◌};
    ghost use Rattle.std.specs.Coded.{coded_list, coded_ℕ};
    ghost use Rattle.source_listing.specs.Uses.{from_place};

    ghost Value = { List ℕ };

    ghost coded = { coded_list coded_ℕ };

    ghost view = { λ u. u.all.now };

    ghost invariant = { λ u. u.left.now ≡ from_place u.from u.all.now };
}

impl<'a> UsePlaces<'a> {
    /// Finds those of a file, which begin at these places.
    #[tactic(auto, using(crate::proofs::Skips::from_none))]
    pub fn new(all: &'a [usize]) -> Self
        ensures { result ≡ all.now }
    {
        UsePlaces {
            all,
            from: 0,
            left: all,
        }
    }

    #[tactic(auto, using(crate::proofs::Skips::from_twice))]
    fn places_from(&self, start: usize) -> &'a [usize]
        ensures { result.now ≡ spec.from_place start self.now }
    {
        if start < self.from {
            return from_place(self.all, start);
        }
        from_place(self.left, start)
    }

    /// Where the use trees begin of the item that begins at this place, and those behind it.
    pub(crate) fn find(&mut self, start: usize) -> &'a [usize]
        ensures starts { result.now ≡ spec.from_place start self.old }
        ensures same { self.new ≡ self.old }
    {
        let left = self.places_from(start);
        *self = UsePlaces {
            all: self.all,
            from: start,
            left,
        };
        left
    }
}
