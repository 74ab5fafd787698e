//! What holds of the types here: a copy is its source. The derive is held to it by a clause. The function does nothing.
ghost use Rattle.hir_input.specs.Equality.{IsCopied};

use crate::import_cfgs::ImportChoice;

fn copies()
    ensures { IsCopied ⟦<ImportChoice<'static> as Clone>⟧.is_clone }
{}
