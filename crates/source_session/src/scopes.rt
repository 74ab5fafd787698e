//! What is around the items that a tree declares, by their ids.
//!
//! It goes on from the item that was found last, so that items in the order of the text cost one pass over the tree in
//! all.
ghost use Rattle.std.specs.Prelude.{◌≡◌, ◌≢◌, ◌++◌, IfOk, OnOk, map, string_bytes, AllPairs, flat_map};
ghost use Rattle.tree_walk.specs.DeclarationView.{declaration_id};
ghost use Rattle.source_listing.specs.Paths.{bare_segment};
ghost use Rattle.source_session.specs.Finders.{KnowsScopes, declared_scope, head_scope};
ghost use Rattle.source_session.specs.Sought.{found_scope, scope_by_id};

use item_tree::{ItemTree, ModItemId};
use source_listing::push_scope;
use std::alloc::{AllocError, Global};
use tree_walk::{Declaration, collect};

/// The names of the modules around the items that a tree declares.
#[derive(Drop)]
pub(crate) struct Scopes<'tree> {
    declarations: Vec<Declaration<'tree>>,
    /// The place behind the declaration that was found last.
    next: usize,
}

// These declarations from the first one of an id on.
fn declared_first<'d, 'tree>(
    declarations: &'d [Declaration<'tree>],
    id: ModItemId,
) -> &'d [Declaration<'tree>]
    ensures { head_scope result.now ≡ found_scope id (map declared_scope declarations.now) }
{
    let mut left = declarations;
    while let [declaration, rest @ ..] = left {
        if declaration.id == id {
            return left;
        }
        left = rest;
    }
    left
}

// The same, looked for from a place on first.
fn declared_from<'d, 'tree>(
    declarations: &'d [Declaration<'tree>],
    next: usize,
    id: ModItemId,
) -> &'d [Declaration<'tree>]
    requires { AllPairs (λ i j. i ≢ j) (map declaration_id declarations.now) }
    ensures { head_scope result.now ≡ found_scope id (map declared_scope declarations.now) }
{
    let left = declared_first(&declarations[next.min(declarations.len())..], id);
    if !left.is_empty() {
        return left;
    }
    declared_first(declarations, id)
}

impl<'tree> Scopes<'tree> {
    /// Those of a tree.
    pub(crate) fn new(alloc: Global, tree: &'tree ItemTree) -> Result<Self, AllocError>
        ensures { IfOk result (KnowsScopes tree.now) }
    {
        let collected = collect(alloc, tree)?;
        Ok(Scopes {
            declarations: collected.declarations,
            next: 0,
        })
    }

    /// Adds the names of the modules around the item of an id.
    #[tactic(auto, using(crate::proofs::Finders::segments_are))]
    pub(crate) fn push_scope(&mut self, id: ModItemId, path: &mut String) -> Result<(), AllocError>
        requires { AllPairs (λ i j. i ≢ j) (map declaration_id self.old.declarations.items) }
        ensures pushed { let scope = scope_by_id id
            (map declared_scope self.old.declarations.items) in
            OnOk result (string_bytes path.new ≡ string_bytes path.old ++ flat_map bare_segment scope) }
        ensures same { self.new.declarations.items ≡ self.old.declarations.items }
    {
        match declared_from(&self.declarations, self.next, id) {
            [declaration, rest @ ..] => {
                self.next = self.declarations.len().saturating_sub(rest.len());
                push_scope(&declaration.path, path)
            }
            [] => Ok(()),
        }
    }
}
