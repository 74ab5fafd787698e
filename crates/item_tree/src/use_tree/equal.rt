//! When aliases and use trees are equal.
ghost use Rattle.std.specs.Prelude.{◌≡◌, ◌↔◌, IsTrue};
ghost use Rattle.std.specs.Ordering.{on};
ghost use Rattle.std.specs.Cmp.{on_equiv, on_per, partial_equiv_from_equiv};
ghost use Rattle.item_tree.specs.Same.{same, same_is_equivalence};
ghost use Rattle.item_tree.specs.Code.Tree.{alias_code, tree_code};
ghost use Rattle.item_tree.specs.Tree.{tree_of, tree_of_kind, trees_of};

use crate::use_tree::{ImportAlias, UseTree, UseTreeKind};

impl PartialEq for ImportAlias {
    ghost eq = { same alias_code };

    ghost laws = { partial_equiv_from_equiv (same_is_equivalence _) };

    fn eq(&self, other: &ImportAlias) -> bool
        ensures decides { IsTrue result ↔ (self.now ≡ other.now) }
        ensures gives { result ≡ same alias_code self.now other.now }
    {
        match (self, other) {
            (ImportAlias::Underscore, ImportAlias::Underscore) => true,
            (ImportAlias::Alias(name), ImportAlias::Alias(other)) => name == other,
            _ => false,
        }
    }
}

impl Eq for ImportAlias {
    ghost laws = { same_is_equivalence _ };
}

// Whether two use trees are seen as one tree.
#[cycle(same_tree)]
#[tactic(auto, using(crate::proofs::TreeLemmas::tree_forms))]
fn same_tree(tree: &UseTree, other: &UseTree) -> bool
    ensures { IsTrue result ↔ (tree_of tree.now ≡ tree_of other.now) }
{
    same_kind(&tree.kind, &other.kind)
}

// Whether two cases are seen as one tree.
#[cycle(same_tree)]
#[tactic(auto, using(crate::proofs::TreeLemmas::tree_forms))]
fn same_kind(kind: &UseTreeKind, other: &UseTreeKind) -> bool
    ensures { IsTrue result ↔ (tree_of_kind kind.now ≡ tree_of_kind other.now) }
{
    match (kind, other) {
        (
            UseTreeKind::Single { path, alias },
            UseTreeKind::Single {
                path: other_path,
                alias: other_alias,
            },
        ) => path == other_path && alias == other_alias,
        (UseTreeKind::Glob { path }, UseTreeKind::Glob { path: other_path }) => path == other_path,
        (
            UseTreeKind::Prefixed { prefix, list },
            UseTreeKind::Prefixed {
                prefix: other_prefix,
                list: other_list,
            },
        ) => prefix == other_prefix && same_trees(list, other_list),
        _ => false,
    }
}

// Whether two lists of use trees are seen as one list.
#[cycle(same_tree)]
fn same_trees(trees: &[UseTree], others: &[UseTree]) -> bool
    ensures { IsTrue result ↔ (trees_of trees.now ≡ trees_of others.now) }
{
    if trees.len() != others.len() {
        return false;
    }
    for (tree, other) in trees.iter().zip(others) {
        if !same_tree(tree, other) {
            return false;
        }
    }
    true
}

/// Two cases are equal where they are seen as the same tree.
impl PartialEq for UseTreeKind {
    ghost eq = { on tree_of_kind (same tree_code) };

    ghost laws = { on_per tree_of_kind (partial_equiv_from_equiv (same_is_equivalence _)) };

    fn eq(&self, other: &UseTreeKind) -> bool
        ensures decides { IsTrue result ↔ (tree_of_kind self.now ≡ tree_of_kind other.now) }
        ensures gives { result ≡ same tree_code (tree_of_kind self.now) (tree_of_kind other.now) }
    {
        same_kind(self, other)
    }
}

impl Eq for UseTreeKind {
    ghost laws = { on_equiv tree_of_kind (same_is_equivalence _) };
}

/// Two use trees are equal where they are seen as the same tree.
impl PartialEq for UseTree {
    ghost eq = { on tree_of (same tree_code) };

    ghost laws = { on_per tree_of (partial_equiv_from_equiv (same_is_equivalence _)) };

    fn eq(&self, other: &UseTree) -> bool
        ensures decides { IsTrue result ↔ (tree_of self.now ≡ tree_of other.now) }
        ensures gives { result ≡ same tree_code (tree_of self.now) (tree_of other.now) }
    {
        same_tree(self, other)
    }
}

impl Eq for UseTree {
    ghost laws = { on_equiv tree_of (same_is_equivalence _) };
}
