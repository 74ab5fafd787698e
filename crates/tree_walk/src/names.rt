//! What an item declares.
ghost use Rattle.std.specs.Prelude.{◌≡◌, IfOk, None, option_copied, option_map};
ghost use Rattle.item_tree.specs.Shown.{IsContained, IsShown, lent_kind};
ghost use Rattle.item_tree.specs.Walk.{of_id};
ghost use Rattle.tree_walk.specs.Declarations.{crate_name, node_name, node_visibility};
ghost use Rattle.tree_walk.specs.DeclarationView.{declared_by};
ghost use Rattle.tree_walk.specs.Inner.Declared.{lent_declares, lent_name, lent_visibility};

use crate::imports::{Listed, list_imports};
use hir_input::Name;
use item_tree::{
    ExternCrate, ImportAlias, ItemTree, ModItemId, ModItemKind, RawVisibility, RawVisibilityId,
};
use std::alloc::{AllocError, Global};

/// What an item declares: a name, or the imports of a use, of which there may be none.
#[derive(Debug, Drop)]
pub enum Declares<'tree> {
    Name(&'tree Name),
    Imports(Vec<Listed>),
}

// The name by which an extern crate is known, unless that is `_`.
fn crate_name(item: &ExternCrate) -> Option<&Name>
    ensures { option_copied result ≡ crate_name item.now.name item.now.alias }
{
    match &item.alias {
        None => Some(&item.name),
        Some(ImportAlias::Underscore) => None,
        Some(ImportAlias::Alias(name)) => Some(name),
    }
}

// The name of an item and the id of its visibility, as far as it has them.
#[tactic(auto, using(crate::proofs::LentNames::module_name, crate::proofs::LentNames::module_visibility))]
fn parts<'tree>(item: ModItemKind<'tree>) -> (Option<&'tree Name>, Option<RawVisibilityId>)
    ensures name { option_copied result.0 ≡ lent_name (lent_kind item.entry) }
    ensures visibility { result.1 ≡ lent_visibility (lent_kind item.entry) }
{
    match item {
        ModItemKind::Const(_, item) => (item.name.as_ref(), Some(item.visibility)),
        ModItemKind::Enum(_, item) => (Some(&item.name), Some(item.visibility)),
        ModItemKind::ExternCrate(_, item) => (crate_name(item), Some(item.visibility)),
        ModItemKind::Function(_, item) => (Some(&item.name), Some(item.visibility)),
        ModItemKind::Macro2(_, item) => (Some(&item.name), Some(item.visibility)),
        ModItemKind::MacroRules(_, item) => (Some(&item.name), None),
        ModItemKind::Mod(_, item) => (Some(&item.name), Some(item.visibility)),
        ModItemKind::Static(_, item) => (Some(&item.name), Some(item.visibility)),
        ModItemKind::Struct(_, item) => (Some(&item.name), Some(item.visibility)),
        ModItemKind::Trait(_, item) => (Some(&item.name), Some(item.visibility)),
        ModItemKind::TypeAlias(_, item) => (Some(&item.name), Some(item.visibility)),
        ModItemKind::Union(_, item) => (Some(&item.name), Some(item.visibility)),
        ModItemKind::Use(_, item) => (None, Some(item.visibility())),
        ModItemKind::ExternBlock(_, _) | ModItemKind::Impl(_, _) | ModItemKind::MacroCall(_, _) => {
            (None, None)
        }
    }
}

// The name of an item, if it has one.
pub(crate) fn name_of<'tree>(item: ModItemKind<'tree>) -> Option<&'tree Name>
    ensures { option_copied result ≡ lent_name (lent_kind item.entry) }
{
    parts(item).0
}

/// The name of an item, if it has one: of an extern crate what it is renamed to, unless that is `_`. Takes no memory.
#[tactic(auto, using(crate::proofs::LentNames::names_at))]
pub fn name_at(tree: &ItemTree, id: ModItemId) -> Option<&Name>
    requires { IsContained tree.now id }
    ensures { option_copied result ≡ of_id tree.now None node_name id }
{
    name_of(tree.index(id))
}

// What an item declares, if anything.
#[tactic(auto, using(crate::proofs::LentNames::module_declares))]
pub(crate) fn declares_of<'tree>(
    alloc: Global,
    item: ModItemKind<'tree>,
) -> Result<Option<Declares<'tree>>, AllocError>
    ensures { IfOk result (λ declares. option_map declared_by declares
        ≡ lent_declares (lent_kind item.entry)) }
{
    match item {
        ModItemKind::Use(_, item) => {
            let imports = list_imports(alloc, item)?;
            Ok(Some(Declares::Imports(imports)))
        }
        _ => match name_of(item) {
            Some(name) => Ok(Some(Declares::Name(name))),
            None => Ok(None),
        },
    }
}

// The visibility of an item, if it has one.
#[tactic(auto, using(crate::proofs::LentNames::lent_visibilities))]
pub(crate) fn visibility_of<'tree>(
    tree: &'tree ItemTree,
    id: ModItemId,
    item: ModItemKind<'tree>,
) -> Option<&'tree RawVisibility>
    requires { IsShown tree.now id item }
    ensures { option_copied result ≡ of_id tree.now None node_visibility id }
{
    match parts(item).1 {
        Some(visibility) => Some(&tree[visibility]),
        None => None,
    }
}

/// The visibility of an item, if it has one: impls, macro calls, macros by example and extern blocks have none. Takes
/// no memory.
pub fn visibility_at(tree: &ItemTree, id: ModItemId) -> Option<&RawVisibility>
    requires { IsContained tree.now id }
    ensures { option_copied result ≡ of_id tree.now None node_visibility id }
{
    visibility_of(tree, id, tree.index(id))
}
