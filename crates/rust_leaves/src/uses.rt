//! Uses and extern crates.

ghost use Rattle.std.specs.Prelude.{◌≡◌, map, option_map};
ghost use Rattle.hir_input.specs.Attr.{meta_view};
ghost use Rattle.rust_cursor.specs.Reader.{Gives};
ghost use Rattle.rust_leaves.specs.Kinds as spec;
ghost use Rattle.rust_leaves.specs.Leaves as leaves;
ghost use Rattle.rust_leaves.specs.Views.{leaf_view, name_view};

use crate::leaf::Leaf;
use crate::named::{Named, item_name, item_name_or, next_range};
use hir_input::ast::{ExternCrate, Item, Rename, Use, Visibility};
use hir_input::{AstIdKind, Meta};
use rust_cursor::Cursor;
use rust_paths::{TextRange, TreeStarts, use_tree};
use std::alloc::{AllocError, Global};

/// Takes what stands behind `as`: a name, or `_`, which is none.
#[tactic(auto, unfolding(crate::specs::Leaves::crate_alias))]
fn alias<'t>(alloc: Global, cursor: &mut Cursor<'t>) -> Result<Named<'t>, AllocError>
    ensures { Gives name_view (leaves.crate_alias cursor.old) result cursor.new }
{
    if cursor.word() != "_" {
        return item_name(alloc, cursor);
    }
    let range = Some(next_range(cursor));
    Ok(Named {
        name: None,
        hashed: "",
        range,
    })
}

/// Takes `as` and what stands behind it, if it comes next.
#[tactic(auto, unfolding(crate::specs::Leaves::written_rename))]
fn take_rename<'t>(alloc: Global, cursor: &mut Cursor<'t>) -> Result<Option<Named<'t>>, AllocError>
    ensures { Gives (option_map name_view) (leaves.written_rename cursor.old) result cursor.new }
{
    if !cursor.eat_word("as") {
        return Ok(None);
    }
    Ok(Some(alias(alloc, cursor)?))
}

/// The place of the name that an extern crate is told by.
fn told_at(named: Option<TextRange>, alias: &Option<Named<'_>>) -> Option<TextRange>
    ensures { result ≡ spec.told_at named (option_map name_view alias.now) }
{
    match alias {
        Some(alias) => alias.range.or(named),
        None => named,
    }
}

fn rename_of(alias: Option<Named<'_>>) -> Option<Rename>
    ensures { result ≡ leaves.rename_of (option_map name_view alias.entry) }
{
    match alias {
        Some(alias) => Some(Rename { name: alias.name }),
        None => None,
    }
}

#[tactic(auto, unfolding(crate::specs::Kinds::crate_item), using(hir_input::proofs::SyntaxViews::item_views))]
pub(crate) fn crate_item<'t>(
    alloc: Global,
    cursor: &mut Cursor<'t>,
    attrs: Vec<Meta>,
    visibility: Option<Visibility>,
) -> Result<Option<Leaf<'t>>, AllocError>
    ensures { Gives (option_map leaf_view)
        (spec.some_read (spec.crate_item (map meta_view attrs.items) visibility cursor.old)) result cursor.new }
{
    let named = item_name_or(alloc, cursor, "self")?;
    let alias = take_rename(alloc, cursor)?;
    let told_at = told_at(named.range, &alias);
    let is_ended = cursor.eat(b';');
    let item = Item::ExternCrate(ExternCrate {
        hash: 0,
        number: 0,
        attrs,
        name: named.name,
        visibility,
        rename: rename_of(alias),
        body: String::new(alloc),
    });
    Ok(Some(Leaf {
        item,
        kind: AstIdKind::ExternCrate,
        name: named.hashed,
        named: told_at,
        body: None,
        is_ended,
        too_deep: None,
        use_trees: TreeStarts::none(alloc),
    }))
}

#[tactic(auto, unfolding(crate::specs::Kinds::use_declaration), using(hir_input::proofs::SyntaxViews::item_views))]
pub(crate) fn use_declaration<'t>(
    alloc: Global,
    cursor: &mut Cursor<'t>,
    attrs: Vec<Meta>,
    visibility: Option<Visibility>,
) -> Result<Option<Leaf<'t>>, AllocError>
    ensures { Gives (option_map leaf_view)
        (spec.some_read (spec.use_declaration (map meta_view attrs.items) visibility cursor.old)) result cursor.new }
{
    let found = use_tree(alloc, cursor)?;
    let is_ended = cursor.eat(b';');
    let item = Item::Use(Use {
        hash: 0,
        number: 0,
        attrs,
        visibility,
        use_tree: found.tree,
        body: String::new(alloc),
    });
    Ok(Some(Leaf {
        item,
        kind: AstIdKind::Use,
        name: "",
        named: None,
        body: None,
        is_ended,
        too_deep: found.too_deep,
        use_trees: found.starts,
    }))
}
