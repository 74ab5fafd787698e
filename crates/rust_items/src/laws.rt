//! What holds of the types here: `==` decides whether two values are one, and a copy is its source. Each derive is held
//! to it by a clause. And what follows from the definitions. The functions do nothing.
ghost use Rattle.hir_input.specs.Equality.{DecidesEq, IsCopied};

use crate::log::{Problem, ProblemKind};
use crate::member::MemberKind;
use crate::source_file::ItemPlace;

fn equal_values()
    ensures kinds { DecidesEq ⟦<ProblemKind as PartialEq>⟧.eq }
    ensures members { DecidesEq ⟦<MemberKind as PartialEq>⟧.eq }
    ensures problems { DecidesEq ⟦<Problem as PartialEq>⟧.eq }
    ensures places { DecidesEq ⟦<ItemPlace as PartialEq>⟧.eq }
{}

fn copies()
    ensures kinds { IsCopied ⟦<ProblemKind as Clone>⟧.is_clone }
    ensures members { IsCopied ⟦<MemberKind as Clone>⟧.is_clone }
    ensures problems { IsCopied ⟦<Problem as Clone>⟧.is_clone }
    ensures places { IsCopied ⟦<ItemPlace as Clone>⟧.is_clone }
{}
