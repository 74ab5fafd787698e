//! What holds of the types here: `==` decides whether two values are one, values that are equal are hashed alike,
//! and a copy is its source. Each derive is held to it by a clause. And what follows of tables. The functions do
//! nothing.
ghost use Rattle.std.specs.Prelude.{◌≡◌, ◌<◌, ◌^◌, ℕ, List, length};
ghost use Rattle.hir_input.specs.Equality.{DecidesEq, HashesAlike, IsCopied};
ghost use Rattle.item_tree_db.specs.Edits.{EditView};
ghost use Rattle.item_tree_db.specs.History.{IsAfter, IsChangeNumber};
ghost use Rattle.item_tree_db.specs.PlaceOrder.{place_cmp};
ghost use Rattle.item_tree_db.specs.State.{State, change_number, crate_limit};

use crate::place::Place;
use crate::tree_id::TreeId;
use std::hash::Hash;

fn places()
    ensures equal { DecidesEq ⟦<Place as PartialEq>⟧.eq }
    ensures ordered { (a b : Place) → ⟦<Place as Ord>⟧.cmp a b ≡ place_cmp a b }
    ensures copied { IsCopied ⟦<Place as Clone>⟧.is_clone }
{}

fn tree_ids()
    ensures equal { DecidesEq ⟦<TreeId as PartialEq>⟧.eq }
    ensures hashed { HashesAlike ⟦<TreeId as PartialEq>⟧.eq ⟦<TreeId as Hash>⟧.hash_input }
    ensures copied { IsCopied ⟦<TreeId as Clone>⟧.is_clone }
{}

// A change number of a table that edits led to: that of the last edit at which the unfolding became another, or what it
// was.
#[tactic(auto, using(crate::proofs::Histories::change_number_is))]
fn change_numbers()
    ensures { (s u : State) (edits : List EditView) (place : Place) (i : ℕ) → IsAfter s edits u → i
        < length s.crates
        → IsChangeNumber s edits place i (change_number u place i) }
{}

// How many crates have a number.
fn limits()
    ensures { crate_limit ≡ 2 ^ 32 }
{}
