//! Whether a cfg disables an item itself, or a file.
ghost use Rattle.std.specs.Prelude.{◌≡◌};
ghost use Rattle.item_tree.specs.Shown.{IsContained};
ghost use Rattle.tree_walk.specs.{Inner.Rows.enabled_at, Rows.is_file_enabled};

use item_tree::{ItemTree, ModItemId};
use item_tree_attrs::AttrsOrCfg;

/// Whether no cfg among the attributes of a file disables it as a whole. Takes no memory.
pub fn is_file_enabled(tree: &ItemTree) -> bool
    ensures { result ≡ is_file_enabled tree.now }
{
    match tree.top_level_attrs() {
        Some(AttrsOrCfg::CfgDisabled(_)) => false,
        _ => true,
    }
}

/// Whether no cfg among the attributes of an item itself disables it. Takes no memory.
pub fn is_enabled(tree: &ItemTree, id: ModItemId) -> bool
    requires { IsContained tree.now id }
    ensures { result ≡ enabled_at tree.now id }
{
    match tree.attrs(id) {
        Some(AttrsOrCfg::CfgDisabled(_)) => false,
        _ => true,
    }
}
