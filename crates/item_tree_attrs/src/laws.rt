//! What holds of every type here: `==` decides whether two values are one, and a copy is its source. Each derive is
//! held to it by a clause; the functions do nothing.
ghost use Rattle.std.specs.Prelude.{◌≡◌, []};
ghost use Rattle.hir_input.specs.Equality.{DecidesEq, DecidesEqOf, IsCopied};
ghost use Rattle.item_tree_attrs.specs.Collected.{collection_of};
ghost use Rattle.item_tree_attrs.specs.Query.{listed_attrs};

use crate::collect::{AttrError, AttrsOrCfg, AttrsOwned};
use crate::query::{AttrQuery, Attrs, KeyedAttrs};

// `==` is true exactly where two errors or lists of attributes are one, or two values have collected the same.
#[tactic(auto, using(crate::proofs::AttrsEq::attrs_decide, crate::proofs::AttrsEq::lists_decide))]
fn equal_values()
    ensures errors { DecidesEq ⟦<AttrError as PartialEq>⟧.eq }
    ensures lists { DecidesEq ⟦<AttrsOwned as PartialEq>⟧.eq }
    ensures attrs { DecidesEqOf collection_of ⟦<AttrsOrCfg as PartialEq>⟧.eq }
{}

// A copy is its source.
fn copies()
    ensures errors { IsCopied ⟦<AttrError as Clone>⟧.is_clone }
    ensures attrs { IsCopied ⟦<Attrs<'static> as Clone>⟧.is_clone }
    ensures queries { IsCopied ⟦<AttrQuery<'static> as Clone>⟧.is_clone }
    ensures keyed { IsCopied ⟦<KeyedAttrs<'static> as Clone>⟧.is_clone }
{}

// `EMPTY` has no attributes.
fn empty() -> Attrs<'static>
    ensures { listed_attrs result ≡ [] }
{
    Attrs::EMPTY
}
