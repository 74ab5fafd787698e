//! What is known of files.
ghost use Rattle.std.specs.Prelude.{◌≡◌, option_copied};
ghost use Rattle.std.specs.Option.{option_map_or};
ghost use Rattle.item_tree.specs.Node.{nothing};
ghost use Rattle.module_tree.specs.Views.{files_of};

use item_tree::ItemTree;
use std::collections::BTreeMap;

/// What stands at a path.
#[derive(Clone, Copy, Debug, PartialEq, Eq)]
pub enum KnownPath {
    /// The file of this number. Paths that lead to one file have its number.
    File(u32),
    /// No file.
    Missing,
}

/// What is known of the files of a crate.
#[derive(Clone, Copy)]
pub struct KnownFiles<'a> {
    /// What stands at paths, as far as it is known.
    pub paths: &'a BTreeMap<String, KnownPath>,
    /// The tree of each file, by its number, under the cfgs of the crate. A file without a tree has no items.
    pub trees: &'a [&'a ItemTree],
}

/// What stands at a path, if it is known.
pub(crate) fn known_path(known: &KnownFiles<'_>, path: &str) -> Option<KnownPath>
    ensures { result ≡ (files_of known.now).known path.now }
{
    known.paths.get(path).copied()
}

/// The tree of a file, if it has one.
pub(crate) fn known_tree<'a>(known: &KnownFiles<'a>, file: u32) -> Option<&'a ItemTree>
    ensures { option_map_or (λ tree. tree.now) result nothing ≡ (files_of known.now).tree file }
{
    known.trees.get(file as usize).copied()
}
