//! What holds of the types here: `==` decides whether two values are one, problems are ordered by place and at a place
//! by kind, and a copy is its source. Each derive is held to it by a clause; the functions do nothing.
ghost use Rattle.std.specs.Prelude.{◌≡◌, ◌<◌};
ghost use Rattle.std.specs.declared.cmp.Ordering.TheVariants.{Less};
ghost use Rattle.hir_input.specs.Equality.{DecidesEq, IsCopied};

use crate::problem::{SourceProblem, SourceProblemKind};

fn kinds()
    ensures equal { DecidesEq ⟦<SourceProblemKind as PartialEq>⟧.eq }
    ensures copied { IsCopied ⟦<SourceProblemKind as Clone>⟧.is_clone }
{}

fn problems()
    ensures equal { DecidesEq ⟦<SourceProblem as PartialEq>⟧.eq }
    ensures copied { IsCopied ⟦<SourceProblem as Clone>⟧.is_clone }
{}

// The derived order is that of places first, and at a place that of kinds.
fn order()
    ensures by_place { (p q : SourceProblem) → p.at < q.at → ⟦<SourceProblem as Ord>⟧.cmp p q
        ≡ Less }
    ensures by_kind { (p q : SourceProblem) → p.at ≡ q.at → ⟦<SourceProblem as Ord>⟧.cmp p q
        ≡ ⟦<SourceProblemKind as Ord>⟧.cmp p.kind q.kind }
{}
