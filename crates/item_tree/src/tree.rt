//! The item tree.
ghost use Rattle.std.specs.Prelude.{◌≡◌, ◌↔◌, IsTrue, option_map, Some, count_by};
ghost use Rattle.item_tree_attrs.specs.Collected.{collection_of};
ghost use Rattle.item_tree.specs.Node.{nothing, node_ast};
ghost use Rattle.item_tree.specs.Layout.{node_at, unfold_tables};
ghost use Rattle.item_tree.specs.Reach.{top_ids};
ghost use Rattle.item_tree.specs.Shown.{IsContained, HasVisibility, IsShown, StandFor, lent_attrs, attrs_at};
ghost use Rattle.item_tree.specs.Size.{Fits};
ghost use Rattle.item_tree.specs.Stats.{stats_of};
ghost use Rattle.item_tree.specs.Stored.{AreSound, has_tag, tables_of};
ghost use Rattle.item_tree.specs.Walk.{IsWalkedOnce};

use crate::items::{ModItemId, ModItemKind};
use crate::rows::{NO_ATTRS, Rows};
use crate::visibility::{FixedVisibilities, PUB_CRATE, RawVisibility, RawVisibilityId};
use hir_input::{AstIdKind, FileAstId};
use item_tree_attrs::AttrsOrCfg;
use std::alloc::Global;
use std::marker::Model;
use std::ops::Index;

/// The items of a file, each with the id of its syntax node, in flat tables.
///
/// A tree is seen as what its tables unfold to: top attributes, and a forest of nodes. Items and their attributes are
/// lent by their ids. Two trees are equal exactly where they unfold alike. Stands for rust-analyzer's `ItemTree`.
#[derive(Debug)]
pub struct ItemTree {
    top_level: Vec<ModItemId>,
    top_place: u32,
    rows: Rows,
    fixed: FixedVisibilities,
}

// (Written out: what is derived is proved anew, field by field, in each crate that drops one.)
impl Drop for ItemTree {
    fn drop(self) {
        let ItemTree {
            top_level: _,
            top_place: _,
            rows: _,
            fixed: _,
        } = self;
    }
}

impl Model for ItemTree {
    ghost use Rattle.item_tree.specs.Node.{Unfolding};
    ghost use Rattle.item_tree.specs.Code.Node.{unfolding_code};

    ghost Value = { Unfolding };

    ghost coded = { unfolding_code };

    ghost use Rattle.item_tree.specs.Layout.{unfold_tables};
    ghost use Rattle.item_tree.specs.Stored.{AreSound, tables_of};

    ghost view = { λ t. unfold_tables (tables_of t.top_level.items t.top_place t.rows) };

    ghost invariant = { λ t. AreSound t.top_level.items t.top_place t.rows };
}

/// How many items of a few kinds a tree has, at every depth. rust-analyzer's `ItemTreeDataStats`.
#[derive(Clone, Copy, Debug, Default, PartialEq, Eq)]
pub struct ItemTreeDataStats {
    pub traits: usize,
    pub impls: usize,
    pub mods: usize,
    pub macro_calls: usize,
    pub macro_rules: usize,
}

impl ItemTree {
    /// The empty tree. Takes no memory. In place of rust-analyzer's `ItemTree::default`.
    #[tactic(auto, unfolding(crate::specs::Layout::arena_of))]
    pub fn empty(alloc: Global) -> ItemTree
        ensures { result ≡ nothing }
    {
        ItemTree {
            top_level: Vec::new(alloc),
            top_place: NO_ATTRS,
            rows: Rows::new(alloc),
            fixed: FixedVisibilities::new(),
        }
    }

    // The tree of these tables, in no more room than they take.
    pub(crate) fn from_rows(
        mut top_level: Vec<ModItemId>,
        top_place: u32,
        mut rows: Rows,
    ) -> ItemTree
        requires { AreSound top_level.items top_place rows }
        ensures { result ≡ unfold_tables (tables_of top_level.items top_place rows) }
    {
        top_level.shrink_to_fit();
        rows.shrink_to_fit();
        ItemTree {
            top_level,
            top_place,
            rows,
            fixed: FixedVisibilities::new(),
        }
    }

    /// The ids of the items at the top, in order. rust-analyzer's `ItemTree::top_level_items`.
    pub fn top_level_items(&self) -> &[ModItemId]
        ensures ids { result.now ≡ top_ids self.now }
        ensures stand { StandFor self.now result.now self.now.forest }
        ensures walk { IsWalkedOnce self.now }
        ensures fits { Fits self.now }
    {
        self.top_level.as_slice()
    }

    /// Lends the top attributes, or nothing where they are enabled and empty. Takes no memory.
    /// rust-analyzer's `ItemTree::top_level_attrs`.
    pub fn top_level_attrs(&self) -> Option<&AttrsOrCfg>
        ensures { option_map (λ attrs. collection_of attrs.now) result ≡ lent_attrs self.now.top_attrs }
    {
        self.rows.attrs_at(self.top_place)
    }

    /// Lends the attributes of an item, or nothing where they are enabled and empty, or the id is not that of an item
    /// of the tree. Takes no memory. rust-analyzer's `ItemTree::attrs`.
    pub fn attrs(&self, id: ModItemId) -> Option<&AttrsOrCfg>
        ensures { option_map (λ attrs. collection_of attrs.now) result ≡ attrs_at self.now id }
    {
        if !self.contains(id) {
            return None;
        }
        self.rows.attrs_at(self.rows.places[id.row()])
    }

    /// Whether the id is that of an item of the tree, which `index` and `ast_id` require. rust-analyzer has no such
    /// test.
    pub fn contains(&self, id: ModItemId) -> bool
        ensures { IsTrue result ↔ IsContained self.now id }
    {
        match self.rows.tags.get(id.row()) {
            Some(kind) => id.fits_kind(*kind),
            None => false,
        }
    }

    /// Whether the id is that of a visibility of the tree, which `tree[id]` requires. rust-analyzer has no such
    /// test.
    #[tactic(auto, unfolding(crate::specs::Layout::vis_at))]
    pub fn has_visibility(&self, id: RawVisibilityId) -> bool
        ensures { IsTrue result ↔ HasVisibility self.now id }
    {
        let number = id.number();
        number >= PUB_CRATE || (number as usize) < self.rows.arena.as_slice().len()
    }

    /// Lends the item of an id. rust-analyzer's `ItemTree::index`. The caller shows `contains(id)`.
    pub fn index(&self, id: ModItemId) -> ModItemKind<'_>
        requires { IsContained self.now id }
        ensures { IsShown self.now id result }
    {
        let ast_id = id.ast_id(self);
        self.rows.items[id.row()].lend(ast_id)
    }

    /// How many items of a few kinds there are, at every depth. rust-analyzer's `ItemTree::item_tree_stats`.
    pub fn item_tree_stats(&self) -> ItemTreeDataStats
        ensures { result ≡ stats_of self.now.forest }
    {
        let tags = self.rows.tags.as_slice();
        ItemTreeDataStats {
            traits: count_kind(tags, AstIdKind::Trait),
            impls: count_kind(tags, AstIdKind::Impl),
            mods: count_kind(tags, AstIdKind::Module),
            macro_calls: count_kind(tags, AstIdKind::MacroCall),
            macro_rules: count_kind(tags, AstIdKind::MacroRules),
        }
    }
}

fn count_kind(tags: &[AstIdKind], kind: AstIdKind) -> usize
    ensures { result ≡ count_by (has_tag kind) tags.now }
{
    tags.iter().filter(|tag| **tag == kind).count()
}

impl ModItemId {
    /// The id of the syntax node that the item is lowered from. rust-analyzer's `ModItemId::ast_id`. The caller shows
    /// `tree.contains(id)`.
    pub fn ast_id(self, tree: &ItemTree) -> FileAstId
        requires { IsContained tree.now self }
        ensures { option_map node_ast (node_at tree.now.forest self) ≡ Some result }
    {
        let row = self.row();
        let key = tree.rows.keys[row];
        FileAstId {
            kind: tree.rows.tags[row],
            hash: key.hash,
            number: key.number,
        }
    }
}

/// Lends the visibility of an id. rust-analyzer's `Index<RawVisibilityId>`. The caller shows `has_visibility(id)`.
impl Index<RawVisibilityId> for ItemTree {
    ghost use Rattle.std.specs.Prelude.{◌≡◌, Some};
    ghost use Rattle.item_tree.specs.Layout.{vis_at};
    ghost use Rattle.item_tree.specs.Shown.{HasVisibility};

    type Output = RawVisibility;

    ghost can_index = { HasVisibility };

    ghost index_gives = { λ tree id visibility. vis_at tree.forest id ≡ Some visibility };

    #[tactic(auto, unfolding(crate::specs::Layout::vis_at))]
    fn index(&self, id: RawVisibilityId) -> &RawVisibility {
        let number = id.number();
        if number < PUB_CRATE {
            &self.rows.arena.as_slice()[number as usize]
        } else {
            &self.fixed.values[(number - PUB_CRATE) as usize]
        }
    }
}

impl PartialEq for ItemTree {
    ghost use Rattle.item_tree.specs.Same.{same, same_is_equivalence};
    ghost use Rattle.item_tree.specs.Code.Node.{unfolding_code};
    ghost use Rattle.item_tree.specs.Shown.{LendAlike};
    ghost use Rattle.std.specs.Cmp.{partial_equiv_from_equiv};
    ghost use Rattle.std.specs.Prelude.{◌≡◌, ◌↔◌, IsTrue};

    ghost eq = { same unfolding_code };

    ghost laws = { partial_equiv_from_equiv (same_is_equivalence _) };

    /// Compares the tables, the visibilities in their order.
    fn eq(&self, other: &ItemTree) -> bool
        ensures decides { IsTrue result ↔ (self.now ≡ other.now) }
        ensures gives { result ≡ same unfolding_code self.now other.now }
        ensures lend { IsTrue result → LendAlike self.now other.now }
    {
        let (top, others_top) = (self.top_level.as_slice(), other.top_level.as_slice());
        (self.top_place, top, self.rows.columns())
            == (other.top_place, others_top, other.rows.columns())
    }
}

impl Eq for ItemTree {
    ghost use Rattle.item_tree.specs.Same.{same_is_equivalence};

    ghost laws = { same_is_equivalence _ };
}
