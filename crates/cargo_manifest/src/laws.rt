//! What holds of the features of every package, and of the types here. The functions do nothing.
ghost use Rattle.hir_input.specs.Equality.{DecidesEq, IsCopied};
ghost use Rattle.cargo_manifest.specs.Laws.{ClosesInTime};

use crate::dependencies::DependencyKind;
use crate::error::Expected;
use crate::roots::RootKind;

// As many steps as there are features enable all that any number of steps does.
#[tactic(auto, using(crate::proofs::Settling::closes_in_time))]
fn features_close()
    ensures { ClosesInTime }
{}

// `==` is true exactly where two values are one.
fn equal_values()
    ensures kinds { DecidesEq ⟦<DependencyKind as PartialEq>⟧.eq }
    ensures expected { DecidesEq ⟦<Expected as PartialEq>⟧.eq }
    ensures roots { DecidesEq ⟦<RootKind as PartialEq>⟧.eq }
{}

// A copy is its source.
fn copies()
    ensures kinds { IsCopied ⟦<DependencyKind as Clone>⟧.is_clone }
    ensures expected { IsCopied ⟦<Expected as Clone>⟧.is_clone }
    ensures roots { IsCopied ⟦<RootKind as Clone>⟧.is_clone }
{}
