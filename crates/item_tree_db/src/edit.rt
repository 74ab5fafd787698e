//! Edits of a table, and their refusals.
ghost use Rattle.std.specs.Prelude.{◌≡◌};
ghost use Rattle.item_tree.specs.declared.fault.EditFault.TheVariants.{Lower};

use hir_input::ast::{BlockExpr, Syntax};
use hir_input::{BlockId, CfgOptions, Crate, HirFileId};
use item_tree::{EditFault, LowerError};
use thiserror::Error;

/// A change of a table. In place of the setters of rust-analyzer's database.
#[derive(Debug, Drop)]
pub enum Edit {
    /// The file has this syntax from now on.
    SetFile { file: HirFileId, syntax: Syntax },
    /// The file has no syntax from now on. It may be one that was never set.
    RemoveFile { file: HirFileId },
    /// The block has this syntax from now on.
    SetBlock { block: BlockId, syntax: BlockExpr },
    /// The block has no syntax from now on. It may be one that was never set.
    RemoveBlock { block: BlockId },
    /// These options are set for the crate from now on, and no others. The crate is one of the table's list.
    SetCfg { krate: Crate, options: CfgOptions },
}

/// A refused edit, handed back, and why it was refused. rust-analyzer has no such error.
#[derive(Debug, Drop, Error)]
#[error("edit refused: {cause}")]
pub struct EditRefused {
    pub edit: Edit,
    pub cause: EditFault,
}

impl EditRefused {
    /// An edit whose lowering was refused.
    pub(crate) fn by(edit: Edit, cause: LowerError) -> EditRefused
        ensures { result ≡ record { edit = edit; cause = Lower cause } }
    {
        let cause = EditFault::Lower(cause);
        EditRefused { edit, cause }
    }
}

/// The first refused edit of a list, and its place in the list, counted from 0. rust-analyzer has no such error.
#[derive(Debug, Drop, Error)]
#[error("edit {place} refused: {}", .refused.cause)]
pub struct AllRefused {
    pub place: usize,
    pub refused: EditRefused,
}
