//! Items that hold no items.

ghost use Rattle.std.specs.Prelude.{◌≡◌, [], map, option_map};
ghost use Rattle.hir_input.specs.Attr.{meta_view};
ghost use Rattle.rust_cursor.specs.Reader.{Gives};
ghost use Rattle.rust_leaves.specs.Clipped.{leaf_behind, wanted_leaf, with_value};
ghost use Rattle.rust_leaves.specs.Kinds as spec;
ghost use Rattle.rust_leaves.specs.Views.{front_view, leaf_view};

use crate::calls::{item_call, macro_definition};
use crate::front::Front;
use crate::head::Head;
use crate::named::{item_name, take_rest, with_inner, with_own};
use crate::structs::{has_trait, structure};
use crate::uses::{crate_item, use_declaration};
use crate::wanted::Wanted;
use hir_input::ast::{Impl, Item, NamedNode, PlainKind, Visibility};
use hir_input::{AstIdKind, Meta};
use rust_cursor::Cursor;
use rust_paths::{TextRange, TreeStarts};
use std::alloc::{AllocError, Global};

/// An item that was read and holds no items.
#[derive(Drop)]
pub struct Leaf<'t> {
    pub item: Item,
    /// The kind of its id.
    pub kind: AstIdKind,
    /// The name that is hashed.
    pub name: &'t str,
    /// Where the name stands.
    pub named: Option<TextRange>,
    /// Where the braces stand that it ends with.
    pub body: Option<TextRange>,
    /// Whether it ends as it should.
    pub is_ended: bool,
    /// The place of a list of a use that is too deep.
    pub too_deep: Option<usize>,
    /// Where the use trees of a use begin.
    pub use_trees: TreeStarts,
}

// What was read of an item other than a use, with a name or with what stands for one.
macro_rules! read_leaf {
    ($alloc:expr, $kind:expr, $item:expr, $named:ident, $rest:expr) => {
        read_leaf!($alloc, $kind, $item, $named.hashed, $named.range, $rest)
    };
    ($alloc:expr, $kind:expr, $item:expr, $name:expr, $named:expr, $rest:expr) => {
        Some(Leaf {
            item: $item,
            kind: $kind,
            name: $name,
            named: $named,
            body: $rest.braces,
            is_ended: $rest.is_ended,
            too_deep: None,
            use_trees: TreeStarts::none($alloc),
        })
    };
}

pub(crate) use read_leaf;

// The node of an item that has a name, a visibility and nothing else of its own.
macro_rules! named_node {
    ($attrs:expr, $visibility:expr, $named:expr, $rest:expr) => {
        NamedNode {
            hash: 0,
            number: 0,
            attrs: $attrs,
            name: $named.name,
            visibility: $visibility,
            body: $rest.body,
        }
    };
}

/// Takes the `mut` of a static.
fn take_mut(kind: PlainKind, cursor: &mut Cursor<'_>) -> bool
    ensures { spec.mut_word kind cursor.old ≡ (result, cursor.new) }
{
    match kind {
        PlainKind::Static => cursor.eat_word("mut"),
        _ => false,
    }
}

/// Takes an item that differs from others in nothing but the kind.
#[tactic(auto, using(crate::proofs::ClippedLeaves::plain_leaf_clipped))]
fn plain_leaf<'t>(
    alloc: Global,
    cursor: &mut Cursor<'t>,
    wanted: Wanted,
    kind: PlainKind,
    attrs: Vec<Meta>,
    visibility: Option<Visibility>,
) -> Result<Option<Leaf<'t>>, AllocError>
    ensures { Gives (option_map leaf_view)
        (spec.some_read (with_value (wanted_leaf wanted (map meta_view attrs.items))
        (spec.plain_leaf kind [] visibility cursor.old))) result cursor.new }
{
    take_mut(kind, cursor);
    let named = item_name(alloc, cursor)?;
    let rest = take_rest(alloc, cursor, wanted.bodies, Head::Plain(kind))?;
    let attrs = with_own(alloc, kind, attrs, rest.block, wanted.metas)?;
    let item = kind.item(named_node!(attrs, visibility, named, rest));
    Ok(read_leaf!(alloc, kind.ast_kind(), item, named, rest))
}

#[tactic(auto, using(hir_input::proofs::SyntaxViews::item_views, crate::proofs::ClippedLeaves::constant_clipped))]
fn constant<'t>(
    alloc: Global,
    cursor: &mut Cursor<'t>,
    wanted: Wanted,
    attrs: Vec<Meta>,
    visibility: Option<Visibility>,
) -> Result<Option<Leaf<'t>>, AllocError>
    ensures { Gives (option_map leaf_view)
        (spec.some_read (with_value (wanted_leaf wanted (map meta_view attrs.items))
        (spec.constant [] visibility cursor.old))) result cursor.new }
{
    let named = item_name(alloc, cursor)?;
    cursor.eat_word("_");
    let rest = take_rest(alloc, cursor, wanted.bodies, Head::Const)?;
    let item = Item::Const(named_node!(attrs, visibility, named, rest));
    Ok(read_leaf!(alloc, AstIdKind::Const, item, named, rest))
}

#[tactic(auto, using(hir_input::proofs::SyntaxViews::item_views, crate::proofs::ClippedLeaves::implementation_clipped))]
fn implementation<'t>(
    alloc: Global,
    cursor: &mut Cursor<'t>,
    wanted: Wanted,
    attrs: Vec<Meta>,
) -> Result<Option<Leaf<'t>>, AllocError>
    ensures { Gives (option_map leaf_view)
        (spec.some_read (with_value (wanted_leaf wanted (map meta_view attrs.items))
        (spec.implementation [] cursor.old))) result cursor.new }
{
    let header = cursor.look_ahead();
    let rest = take_rest(alloc, cursor, wanted.bodies, Head::Impl)?;
    let is_trait_impl = has_trait(&header, cursor.last_end());
    let attrs = with_inner(alloc, attrs, rest.block, wanted.metas)?;
    let item = Item::Impl(Impl {
        hash: 0,
        number: 0,
        attrs,
        is_trait_impl,
        body: rest.body,
    });
    Ok(read_leaf!(alloc, AstIdKind::Impl, item, "", None, rest))
}

/// Takes an item that holds no items, behind the words that begin it, or nothing where none is written. Of its body
/// text and its inner documentation it has what is wanted; the attributes before it are those that it is given.
///
/// # Errors
///
/// Only if memory runs out. The cursor may then stand anywhere.
#[tactic(auto, using(crate::proofs::ClippedLeaves::leaf_clipped))]
pub fn take_leaf<'t>(
    alloc: Global,
    cursor: &mut Cursor<'t>,
    wanted: Wanted,
    front: Front,
) -> Result<Option<Leaf<'t>>, AllocError>
    ensures { Gives (option_map leaf_view)
        (leaf_behind wanted (front_view front) cursor.old) result cursor.new }
{
    let attrs = front.attrs;
    let visibility = front.visibility;
    match front.head {
        Head::Use => use_declaration(alloc, cursor, attrs, visibility),
        Head::ExternCrate => crate_item(alloc, cursor, attrs, visibility),
        Head::Impl => implementation(alloc, cursor, wanted, attrs),
        Head::Struct => structure(alloc, cursor, wanted, attrs, visibility),
        Head::Const => constant(alloc, cursor, wanted, attrs, visibility),
        Head::Plain(kind) => plain_leaf(alloc, cursor, wanted, kind, attrs, visibility),
        Head::MacroRules => macro_definition(alloc, cursor, wanted, attrs),
        Head::Module | Head::ExternBlock | Head::Other => item_call(alloc, cursor, wanted, attrs),
    }
}
