//! Places that have a tree in each crate.
use hir_input::{BlockId, HirFileId};
use std::cmp::Ordering;

/// What has a syntax, and a tree in each crate. rust-analyzer has no such type.
///
/// Files come before blocks, and each in the order of their numbers.
#[derive(Clone, Copy, Debug, PartialEq, Eq)]
pub enum Place {
    /// A file, or the result of a macro.
    File(HirFileId),
    /// A block expression that has items.
    Block(BlockId),
}

impl PartialOrd for Place {
    ghost use Rattle.std.specs.Ordering.{as_partial_cmp};
    ghost use Rattle.item_tree_db.specs.PlaceOrder.{place_cmp, place_cmp_partial};

    ghost partial_cmp = { as_partial_cmp place_cmp };

    ghost laws = { place_cmp_partial };

    fn partial_cmp(&self, other: &Place) -> Option<Ordering> {
        Some(self.cmp(other))
    }
}

impl Ord for Place {
    ghost use Rattle.std.specs.Prelude.{refl};
    ghost use Rattle.item_tree_db.specs.PlaceOrder.{place_cmp, place_cmp_total, place_cmp_ties};

    ghost cmp = { place_cmp };

    ghost total = { place_cmp_total };

    ghost matches_partial_cmp = { λ a b. refl };

    ghost matches_eq = { place_cmp_ties };

    fn cmp(&self, other: &Place) -> Ordering {
        match (self, other) {
            (Place::File(a), Place::File(b)) => a.0.cmp(&b.0),
            (Place::File(_), Place::Block(_)) => Ordering::Less,
            (Place::Block(_), Place::File(_)) => Ordering::Greater,
            (Place::Block(a), Place::Block(b)) => a.0.cmp(&b.0),
        }
    }
}
