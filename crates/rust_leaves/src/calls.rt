//! Macro calls and macros by example.

ghost use Rattle.std.specs.Prelude.{◌≡◌, Some, [], map, option_map};
ghost use Rattle.hir_input.specs.Attr.{meta_view};
ghost use Rattle.rust_cursor.specs.Reader.{Gives};
ghost use Rattle.rust_leaves.specs.Clipped.{wanted_leaf, wanted_leaf_if, with_value};
ghost use Rattle.rust_leaves.specs.Kinds as spec;
ghost use Rattle.rust_leaves.specs.Views.{callee_view, leaf_view};

use crate::head::{begins_call, is_called};
use crate::leaf::{Leaf, read_leaf};
use crate::named::{call_end, item_name_or};
use crate::texts::{last_text, without_hash};
use crate::wanted::Wanted;
use hir_input::ast::{Item, MacroCall, MacroRules, PathNode};
use hir_input::{AstIdKind, EditionYear, ExpandTo, Meta, SyntaxContext};
use rust_cursor::Cursor;
use rust_paths::{TreeStarts, path};
use std::alloc::{AllocError, Global};

#[tactic(auto, using(hir_input::proofs::SyntaxViews::item_views, crate::proofs::ClippedLeaves::macro_definition_clipped))]
pub(crate) fn macro_definition<'t>(
    alloc: Global,
    cursor: &mut Cursor<'t>,
    wanted: Wanted,
    attrs: Vec<Meta>,
) -> Result<Option<Leaf<'t>>, AllocError>
    ensures { Gives (option_map leaf_view)
        (spec.some_read (with_value (wanted_leaf wanted (map meta_view attrs.items))
        (spec.macro_definition [] cursor.old))) result cursor.new }
{
    let named = item_name_or(alloc, cursor, "try")?;
    let rest = call_end(alloc, cursor, wanted.bodies)?;
    let item = Item::MacroRules(MacroRules {
        hash: 0,
        number: 0,
        attrs,
        name: named.name,
        body: rest.body,
    });
    Ok(read_leaf!(alloc, AstIdKind::MacroRules, item, named, rest))
}

/// What a macro is called by.
#[derive(Drop)]
pub(crate) struct Callee<'t> {
    pub path: Option<PathNode>,
    /// The last word of the path, which is hashed.
    pub name: &'t str,
}

/// Takes the path of a macro and its `!`, if a macro call comes next.
#[tactic(auto, unfolding(crate::specs::Kinds::callee))]
pub(crate) fn take_callee<'t>(
    alloc: Global,
    cursor: &mut Cursor<'t>,
) -> Result<Option<Callee<'t>>, AllocError>
    ensures { Gives (option_map callee_view) (spec.callee cursor.old) result cursor.new }
{
    let mut ahead = cursor.look_ahead();
    let path = path(alloc, &mut ahead)?;
    if path.is_none() {
        return Ok(None);
    }
    if !is_called(&ahead) {
        return Ok(None);
    }
    let name = without_hash(last_text(cursor, ahead.last_end()));
    ahead.bump();
    *cursor = ahead;
    Ok(Some(Callee { path, name }))
}

#[tactic(auto, using(hir_input::proofs::SyntaxViews::item_views, crate::proofs::ClippedLeaves::call_clipped))]
fn call_behind<'t>(
    alloc: Global,
    cursor: &mut Cursor<'t>,
    wanted: Wanted,
    attrs: Vec<Meta>,
    path: Option<PathNode>,
    name: &'t str,
) -> Result<Option<Leaf<'t>>, AllocError>
    ensures { Gives (option_map leaf_view)
        (spec.some_read (with_value (wanted_leaf wanted (map meta_view attrs.items))
        (spec.call_behind [] path name.now cursor.old))) result cursor.new }
{
    let rest = call_end(alloc, cursor, wanted.bodies)?;
    let item = Item::MacroCall(MacroCall {
        hash: 0,
        number: 0,
        attrs,
        path,
        expand_to: ExpandTo::Items,
        ctxt: SyntaxContext::Root(EditionYear::E2024),
        body: rest.body,
    });
    Ok(read_leaf!(alloc, AstIdKind::MacroCall, item, name, None, rest))
}

/// Takes a macro call that is an item, or nothing where none is written.
#[tactic(auto, using(crate::proofs::Callees::item_call_taken))]
pub(crate) fn item_call<'t>(
    alloc: Global,
    cursor: &mut Cursor<'t>,
    wanted: Wanted,
    attrs: Vec<Meta>,
) -> Result<Option<Leaf<'t>>, AllocError>
    ensures { Gives (option_map leaf_view)
        (with_value (wanted_leaf_if wanted (map meta_view attrs.items))
        (spec.item_call [] cursor.old)) result cursor.new }
{
    if !begins_call(cursor) {
        return Ok(None);
    }
    match take_callee(alloc, cursor)? {
        Some(Callee { path, name }) => { call_behind(alloc, cursor, wanted, attrs, path, name) }
        None => Ok(None),
    }
}
