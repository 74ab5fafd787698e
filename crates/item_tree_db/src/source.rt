//! The syntax of a place, as the table keeps it.
ghost use Rattle.std.specs.Prelude.{◌≡◌};
ghost use Rattle.item_tree_db.specs.Inner.Source.{source_place, edit_of};

use crate::edit::Edit;
use crate::place::Place;
use hir_input::ast::{BlockExpr, Syntax};
use hir_input::{BlockId, HirFileId};

/// What is set at a place.
#[derive(Drop)]
pub enum Source {
    File { file: HirFileId, syntax: Syntax },
    Block { block: BlockId, syntax: BlockExpr },
}

impl Source {
    pub fn place(&self) -> Place
        ensures { result ≡ source_place self.now }
    {
        match self {
            Source::File { file, .. } => Place::File(*file),
            Source::Block { block, .. } => Place::Block(*block),
        }
    }

    /// The edit that sets it.
    pub fn into_edit(self) -> Edit
        ensures { result ≡ edit_of self }
    {
        match self {
            Source::File { file, syntax } => Edit::SetFile { file, syntax },
            Source::Block { block, syntax } => Edit::SetBlock { block, syntax },
        }
    }
}
