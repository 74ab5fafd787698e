//! What holds of the types here: `==` decides whether two values are one, and a copy is its source. Each derive is held
//! to it by a clause. And how much is read. The functions do nothing.
ghost use Rattle.std.specs.Prelude.{◌≡◌, ◌-◌, ◌*◌, ◌^◌};
ghost use Rattle.item_tree.specs.Items.{IsByValue};
ghost use Rattle.item_tree_request.specs.Streams.{most_bytes};

use crate::error::RunError;
use crate::request::show::{Show, ShowKind, TreeShow};
use crate::write::RequestFault;

fn errors()
    ensures by_value { IsByValue ⟦<RunError as PartialEq>⟧.eq ⟦<RunError as Clone>⟧.is_clone }
{}

fn faults()
    ensures by_value { IsByValue ⟦<RequestFault as PartialEq>⟧.eq ⟦<RequestFault as Clone>⟧.is_clone }
{}

fn shows()
    ensures kinds { IsByValue ⟦<ShowKind as PartialEq>⟧.eq ⟦<ShowKind as Clone>⟧.is_clone }
    ensures of_trees { IsByValue ⟦<TreeShow as PartialEq>⟧.eq ⟦<TreeShow as Clone>⟧.is_clone }
    ensures shows { IsByValue ⟦<Show as PartialEq>⟧.eq ⟦<Show as Clone>⟧.is_clone }
{}

// The most that is read: one read fewer than 2^24, of 4096 bytes each.
fn limits()
    ensures { most_bytes ≡ (2 ^ 24 - 1) * 4096 }
{}
