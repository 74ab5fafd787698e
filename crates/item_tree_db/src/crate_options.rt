//! The options of the crates of a table.
ghost use Rattle.std.specs.Prelude.{◌≡◌, ◌<◌, length, map, slice_get, option_map, Some};
ghost use Rattle.item_tree.specs.CrateView.{crate_view};
ghost use Rattle.item_tree_db.specs.State.{with_cfg};
ghost use Rattle.item_tree_db.specs.Inner.Shelf.{change_at};

use hir_input::CfgOptions;
use item_tree::CrateData;
use std::mem;

/// Exchanges the options of a crate and these.
pub fn swap_options(crates: &mut Vec<CrateData>, index: usize, options: &mut CfgOptions)
    requires { index < length crates.old.items }
    ensures swapped { map crate_view crates.new.items
        ≡ change_at index (with_cfg options.old) (map crate_view crates.old.items) }
    ensures before { option_map (λ k. k.options) (slice_get (map crate_view crates.old.items) index)
        ≡ Some options.new }
    ensures count { length crates.new.items ≡ length crates.old.items }
{
    mem::swap(&mut crates[index].cfg, options);
}
