//! What holds of the types here: `==` decides whether two values are one, and a copy is its source. The derives are
//! held to it by clauses; the functions do nothing.
ghost use Rattle.hir_input.specs.Equality.{IsCopied};
ghost use Rattle.item_tree.specs.Items.{IsByValue};

use crate::import_entries::ImportLook;
use crate::trees::SourceError;

fn errors()
    ensures { IsByValue ⟦<SourceError as PartialEq>⟧.eq ⟦<SourceError as Clone>⟧.is_clone }
{}

fn looks()
    ensures { IsCopied ⟦<ImportLook as Clone>⟧.is_clone }
{}
