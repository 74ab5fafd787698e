//! What holds of the types here: a copy is its source. Each derive is held to it by a clause; the functions do nothing.
ghost use Rattle.hir_input.specs.Equality.{IsCopied};

use crate::head::Head;
use crate::wanted::Wanted;

fn heads()
    ensures { IsCopied ⟦<Head as Clone>⟧.is_clone }
{}

fn wants()
    ensures { IsCopied ⟦<Wanted as Clone>⟧.is_clone }
{}
