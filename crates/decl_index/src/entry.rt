//! Entries of an index.
ghost use Rattle.std.specs.Prelude.{◌≡◌, refl};
ghost use Rattle.std.specs.Ordering.{as_partial_cmp};
ghost use Rattle.hir_input.specs.Equality.{DecidesEq};
ghost use Rattle.decl_index.specs.EntryOrder.{entry_cmp, entry_cmp_partial, entry_cmp_total, entry_cmp_ties};

use hir_input::{Crate, Name};
use item_tree::ModItemId;
use item_tree_db::Place;
use std::alloc::AllocError;
use std::cmp::Ordering;

/// An item that has a name: in which tree of the table it stands, and under which id.
///
/// In the order of the names by their bytes, then of places, of crates and of ids.
#[derive(Debug, PartialEq, Eq, Drop)]
pub struct Entry {
    pub name: Name,
    pub place: Place,
    pub krate: Crate,
    /// The item's id in the crate's tree of the place.
    pub id: ModItemId,
}

impl Clone for Entry {
    ghost is_clone = { λ entry copy. copy ≡ entry };

    fn clone(&self) -> Result<Entry, AllocError> {
        let name = self.name.clone()?;
        let (place, krate, id) = (self.place, self.krate, self.id);
        Ok(Entry {
            name,
            place,
            krate,
            id,
        })
    }
}

impl PartialOrd for Entry {
    ghost partial_cmp = { as_partial_cmp entry_cmp };

    ghost laws = { entry_cmp_partial };

    fn partial_cmp(&self, other: &Entry) -> Option<Ordering> {
        Some(self.cmp(other))
    }
}

impl Ord for Entry {
    ghost cmp = { entry_cmp };

    ghost total = { entry_cmp_total };

    ghost matches_partial_cmp = { λ a b. refl };

    ghost matches_eq = { entry_cmp_ties };

    fn cmp(&self, other: &Entry) -> Ordering {
        let names = self.name.text().cmp(other.name.text());
        names
            .then(self.place.cmp(&other.place))
            .then(self.krate.0.cmp(&other.krate.0))
            .then(self.id.cmp(&other.id))
    }
}

// `==` decides whether two entries are one, and their order is that of its definition: the derive and the impl are held
// to it by these clauses; the function does nothing.
fn laws()
    ensures equal { DecidesEq ⟦<Entry as PartialEq>⟧.eq }
    ensures ordered { (a b : Entry) → ⟦<Entry as Ord>⟧.cmp a b ≡ entry_cmp a b }
{}
