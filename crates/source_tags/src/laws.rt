//! What holds of the types here: a copy is its source, as a clause for each derive says. The function does nothing.
ghost use Rattle.hir_input.specs.Equality.{IsCopied};

use crate::tag_bodies::TagChoice;
use crate::tag_fields::TagFields;
use crate::tags::{Address, TagForm};

fn copies()
    ensures addresses { IsCopied ⟦<Address as Clone>⟧.is_clone }
    ensures fields { IsCopied ⟦<TagFields as Clone>⟧.is_clone }
    ensures forms { IsCopied ⟦<TagForm as Clone>⟧.is_clone }
    ensures choices { IsCopied ⟦<TagChoice<'static> as Clone>⟧.is_clone }
{}
