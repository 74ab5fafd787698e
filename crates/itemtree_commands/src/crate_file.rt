//! The files of a crate.
ghost use Rattle.std.specs.Prelude.{◌≡◌, IfErr, IfOk, string_bytes};
ghost use Rattle.itemtree_commands.specs.Answers.{HasNoList};
ghost use Rattle.itemtree_commands.specs.ModuleLists.{IsCrateFile, placed_text, position_in_text};
ghost use Rattle.itemtree_commands.specs.ModuleLists.{tree_position_in_text};

use crate::Options;
use crate::listed::{ListedTree, listed_tree};
use crate::trees::SourceError;
use hir_input::FileAstId;
use item_tree::{ItemTree, UseTreeIdx};
use line_index::{Position, Units};
use rust_items::ItemPlace;
use source_listing::PlaceFinder;
use source_rows::stands_at;
use std::alloc::Global;
use std::marker::Model;

/// A file of a crate: its path, its text, and the tree that lists tell of it.
pub struct CrateFile {
    path: String,
    text: String,
    listed: ListedTree,
}

// (Written out: what is derived is proved anew, field by field, in each crate that drops one.)
impl Drop for CrateFile {
    fn drop(self) {
        let CrateFile {
            path: _,
            text: _,
            listed: _,
        } = self;
    }
}

impl Model for CrateFile {
    ghost use Rattle.std.specs.Prelude.{string_bytes};
    ghost use Rattle.itemtree_commands.specs.Inner.{crate_file_code};
    ghost use Rattle.itemtree_commands.specs.ModuleLists as spec;
    ghost use Rattle.itemtree_commands.specs.Trees.{HasOwnIds};

    ghost Value = { spec.CrateFile };

    ghost coded = { crate_file_code };

    ghost view = { λ x. record {
      path = string_bytes x.path;
      text = string_bytes x.text;
      places = x.listed.source.places.items;
      use_trees = x.listed.source.use_trees.items;
      tree = x.listed.source.tree;
    } };

    ghost invariant = { λ x. HasOwnIds x.listed.source };
}

impl CrateFile {
    /// Reads a file.
    ///
    /// # Errors
    ///
    /// Those of `listed_tree`.
    pub fn read(
        alloc: Global,
        path: String,
        text: String,
        options: &Options,
    ) -> Result<CrateFile, SourceError>
        ensures read { IfOk result (IsCrateFile options.now (string_bytes path) (string_bytes text)) }
        ensures refused { IfErr result (HasNoList options.now (string_bytes text)) }
    {
        let listed = listed_tree(alloc, &text, options)?;
        Ok(CrateFile { path, text, listed })
    }

    /// The path.
    pub fn path(&self) -> &str
        ensures { result.now ≡ self.now.path }
    {
        &self.path
    }

    /// The text.
    pub fn text(&self) -> &str
        ensures { result.now ≡ self.now.text }
    {
        &self.text
    }

    /// The places of its items.
    pub(crate) fn places(&self) -> &[ItemPlace]
        ensures { result.now ≡ self.now.places }
    {
        &self.listed.source.places
    }

    /// What finds where its items and use trees stand.
    pub(crate) fn finder(&self) -> PlaceFinder<'_>
        ensures { result ≡ placed_text self.now }
    {
        let source = &self.listed.source;
        PlaceFinder::new(&self.text, &source.places, &source.use_trees)
    }

    /// The item tree.
    pub fn tree(&self) -> &ItemTree
        ensures { result.now ≡ self.now.tree }
    {
        &self.listed.source.tree
    }
}

/// Where an item stands.
pub(crate) fn position_of(finder: &mut PlaceFinder<'_>, id: FileAstId) -> Option<Position>
    ensures position { result ≡ position_in_text id finder.old }
    ensures same { finder.new ≡ finder.old }
{
    let place = finder.place(id)?;
    Some(finder.position(Units::Characters, stands_at(place)))
}

/// Where the use tree of this number in an item begins.
pub(crate) fn tree_position_of(
    finder: &mut PlaceFinder<'_>,
    id: FileAstId,
    index: UseTreeIdx,
) -> Option<Position>
    ensures position { result ≡ tree_position_in_text id index.0 finder.old }
    ensures same { finder.new ≡ finder.old }
{
    let trees = finder.trees_of(id);
    let spot = finder.tree_spot(Units::Characters, trees, index)?;
    Some(spot.position)
}
