//! What holds of the types here: `==` decides whether two values are one, and a copy is its source. The derives are
//! held to it by clauses; the functions do nothing.
ghost use Rattle.hir_input.specs.Equality.{DecidesEq, IsCopied};

use crate::imports::Listed;
use crate::subject::Subject;

#[tactic(auto, using(crate::proofs::ListedImports::listed_decides))]
fn imports()
    ensures equal { DecidesEq ⟦<Listed as PartialEq>⟧.eq }
{}

fn subjects()
    ensures { IsCopied ⟦<Subject<'static> as Clone>⟧.is_clone }
{}
