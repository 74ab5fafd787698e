//! What holds of the types here: `==` decides whether two values are one, and a copy is its source. Each derive is held
//! to it by a clause. And the laws above the reader, each told in words by its definition. The functions do nothing.

ghost use Rattle.hir_input.specs.Equality.{DecidesEq, IsCopied};
ghost use Rattle.rust_edits.specs.Edits.{ItemsAreInOrder};
ghost use Rattle.rust_edits.specs.Typing.Laws.{TypingInside};
ghost use Rattle.rust_edits.specs.Typing.Loose.{ProblemsMove};
ghost use Rattle.rust_edits.specs.Typing.Moved.{BodyIsTold, IsReadAnew, PlacesMove};
ghost use Rattle.rust_edits.specs.Typing.Opened.{BodyOpens};
ghost use Rattle.rust_edits.specs.Typing.Problems.{ProblemsStand};
ghost use Rattle.rust_edits.specs.ItemJoins.Joined.{InsideJoin, ItemsJoin};
ghost use Rattle.rust_edits.specs.ItemJoins.Open.{OpenItemsEnd};
ghost use Rattle.rust_edits.specs.ItemJoins.Mended.{ItemsBefore, ItemsBehind, ListsBefore, OpenBehind};

use crate::edit::BodyEdit;
use crate::shift::Shift;

fn values()
    ensures shifts_equal { DecidesEq ⟦<Shift as PartialEq>⟧.eq }
    ensures shifts_copied { IsCopied ⟦<Shift as Clone>⟧.is_clone }
    ensures edits_equal { DecidesEq ⟦<BodyEdit as PartialEq>⟧.eq }
    ensures edits_copied { IsCopied ⟦<BodyEdit as Clone>⟧.is_clone }
{}

// What typing inside a body leaves as it is, and what `edit_inside` asks of items.
fn typing()
    ensures items_are_in_order { ItemsAreInOrder }
    ensures typing_inside { TypingInside }
    ensures places_move { PlacesMove }
    ensures is_read_anew { IsReadAnew }
    ensures body_is_told { BodyIsTold }
    ensures body_opens { BodyOpens }
    ensures problems_stand { ProblemsStand }
    ensures problems_move { ProblemsMove }
{}

// What is read of a text that ends with a whole item and of what is behind it, also where brackets are mended.
fn items_beside()
    ensures items_join { ItemsJoin }
    ensures inside_join { InsideJoin }
    ensures open_items_end { OpenItemsEnd }
    ensures items_before { ItemsBefore }
    ensures items_behind { ItemsBehind }
    ensures open_behind { OpenBehind }
    ensures lists_before { ListsBefore }
{}
