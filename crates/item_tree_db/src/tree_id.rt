//! Ids of trees, and the trees of files.
ghost use Rattle.std.specs.Prelude.{◌≡◌, is_some};
ghost use Rattle.item_tree_db.specs.State.{IsKnown, unfolding_at};
ghost use Rattle.item_tree_db.specs.TreeIds.{tree_place};

use crate::place::Place;
use crate::sources::Sources;
use hir_input::{BlockId, Crate, HirFileId};
use item_tree::ItemTree;
use std::marker::Model;

/// The id of the tree of a file, or of a block in a file.
///
/// Stands for rust-analyzer's `TreeId`.
#[derive(Clone, Copy, Debug, PartialEq, Eq, Hash)]
pub struct TreeId {
    file: HirFileId,
    block: Option<BlockId>,
}

impl Model for TreeId {
    ghost use Rattle.item_tree_db.specs.TreeIds.{TreeIdView};

    ghost Value = { TreeIdView };

    ghost view = { λ id. (id.file, id.block) };

    ghost inverse = { λ v. record { file = v.0; block = v.1 } };
}

impl TreeId {
    /// The id of the file's tree, or with a block of that block's.
    pub fn new(file: HirFileId, block: Option<BlockId>) -> TreeId
        ensures { result ≡ (file, block) }
    {
        TreeId { file, block }
    }

    /// The file, also where the tree is a block's.
    pub fn file_id(self) -> HirFileId
        ensures { result ≡ self.0 }
    {
        self.file
    }

    /// Whether the tree is a block's.
    pub fn is_block(self) -> bool
        ensures { result ≡ is_some self.1 }
    {
        self.block.is_some()
    }

    /// The tree in a crate: the empty one where nothing is set or the syntax is `Error`. rust-analyzer's
    /// `TreeId::item_tree`. The caller shows `sources.knows(krate)`.
    pub fn item_tree<'db>(&self, sources: &'db Sources, krate: Crate) -> &'db ItemTree
        requires { IsKnown sources.now krate }
        ensures { result.now ≡ unfolding_at sources.now (tree_place self.now) krate.0 }
    {
        match self.block {
            Some(block) => sources.tree(Place::Block(block), krate),
            None => sources.tree(Place::File(self.file), krate),
        }
    }
}

/// A crate's tree of a file: the empty one where nothing is set or the syntax is `Error`. rust-analyzer's
/// query `file_item_tree`. The caller shows `sources.knows(krate)`.
pub fn file_item_tree(sources: &Sources, file: HirFileId, krate: Crate) -> &ItemTree
    requires { IsKnown sources.now krate }
    ensures { result.now ≡ unfolding_at sources.now (Place.File file) krate.0 }
{
    sources.tree(Place::File(file), krate)
}
