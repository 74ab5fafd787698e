//! What holds of the definitions of places; and of the types here: a copy is its source. Each derive is held to it by a
//! clause. The functions do nothing.
ghost use Rattle.hir_input.specs.Equality.{IsCopied};

use crate::entries::Item;
use crate::lines::Choice;
use crate::outlines::Look;
use crate::search::Query;
use crate::uses::UseTrees;

fn copies()
    ensures choices { IsCopied ⟦<Choice as Clone>⟧.is_clone }
    ensures items { IsCopied ⟦<Item<'static> as Clone>⟧.is_clone }
    ensures looks { IsCopied ⟦<Look as Clone>⟧.is_clone }
    ensures queries { IsCopied ⟦<Query<'static> as Clone>⟧.is_clone }
    ensures use_trees { IsCopied ⟦<UseTrees<'static> as Clone>⟧.is_clone }
{}
