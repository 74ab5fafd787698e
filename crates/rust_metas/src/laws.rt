//! What holds of the type here: `==` decides whether two values are one, and a copy is its source. The derives are held
//! to it by clauses; the function does nothing.
ghost use Rattle.hir_input.specs.Equality.{DecidesEq, IsCopied};

use crate::wanted::WantedMetas;

fn wanted_metas()
    ensures equal { DecidesEq ⟦<WantedMetas as PartialEq>⟧.eq }
    ensures copied { IsCopied ⟦<WantedMetas as Clone>⟧.is_clone }
{}
