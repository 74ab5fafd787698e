//! What holds of the types here, each derive held to it by a clause, and of comparisons, each law told in words by its
//! definition. The functions do nothing.

ghost use Rattle.std.specs.Prelude.{◌≡◌, Decides};
ghost use Rattle.hir_input.specs.Equality.{IsByValue, IsCopied};
ghost use Rattle.source_changes.specs.Typing.{HolesAreUnseen, MemberHolesAreUnseen, MovedHolesAreUnseen};
ghost use Rattle.source_changes.specs.Typing.{StandWithoutReturns, TypingInMemberIsSame, TypingIsSame};

use crate::change_kind::ChangeKind;
use crate::kept::{Hole, Skeleton};
use crate::row_changes::{Change, Row};

fn holes()
    ensures equal { (a b : Hole) → Decides (⟦<Hole as PartialEq>⟧.eq a b) (a ≡ b) }
    ensures copied { (source copy : Hole) → ⟦<Hole as Clone>⟧.is_clone source copy → copy ≡ source }
{}

fn rows()
    ensures { IsCopied ⟦<Row<'static> as Clone>⟧.is_clone }
{}

fn skeletons()
    ensures { IsCopied ⟦<Skeleton<'static> as Clone>⟧.is_clone }
{}

fn changes()
    ensures copied { (source copy : Change) → ⟦<Change<'static> as Clone>⟧.is_clone source copy
        → copy ≡ source }
{}

fn change_kinds()
    ensures { IsByValue ⟦<ChangeKind as PartialEq>⟧.eq ⟦<ChangeKind as Clone>⟧.is_clone }
{}

fn typing()
    ensures stand_without_returns { StandWithoutReturns }
    ensures holes_are_unseen { HolesAreUnseen }
    ensures typing_is_same { TypingIsSame }
    ensures moved_holes_are_unseen { MovedHolesAreUnseen }
    ensures member_holes_are_unseen { MemberHolesAreUnseen }
    ensures typing_in_member_is_same { TypingInMemberIsSame }
{}
