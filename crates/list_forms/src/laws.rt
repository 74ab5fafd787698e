//! What holds of the type here: a copy is its source. The derive is held to it by a clause; the function does nothing.
ghost use Rattle.hir_input.specs.Equality.{IsCopied};

use crate::lines::Form;

fn copies()
    ensures { IsCopied ⟦<Form as Clone>⟧.is_clone }
{}
