//! The names of items, and where items end.

ghost use Rattle.std.specs.Prelude.{◌≡◌, ◌++◌, IfOk, Some, string_bytes, map, option_map, false};
ghost use Rattle.rust_paths.specs.Views.{placed_view};
ghost use Rattle.hir_input.specs.Attr.{meta_view};
ghost use Rattle.rust_cursor.specs.Extents.{excerpt_view};
ghost use Rattle.rust_cursor.specs.Reader.{Gives};
ghost use Rattle.rust_cursor.specs.Words.{bumped};
ghost use Rattle.rust_metas.specs.Docs.{kept_metas};
ghost use Rattle.rust_leaves.specs.Clipped.{clipped_rest, with_value};
ghost use Rattle.rust_leaves.specs.Kinds.{own_attributes, rest_of};
ghost use Rattle.rust_leaves.specs.Leaves as spec;
ghost use Rattle.rust_leaves.specs.Views.{name_view, rest_view};

use crate::head::Head;
use crate::texts::without_hash;
use hir_input::ast::PlainKind;
use hir_input::{Meta, Name};
use rust_cursor::{Cursor, Excerpt};
use rust_metas::{WantedMetas, kept_inner_attributes};
use rust_paths::{PlacedName, TextRange, placed_name};
use std::alloc::{AllocError, Global};

/// The name of an item.
#[derive(Drop)]
pub struct Named<'t> {
    pub name: Option<Name>,
    /// The name that is hashed.
    pub hashed: &'t str,
    /// Where it stands.
    pub range: Option<TextRange>,
}

/// What stands behind an item's header.
#[derive(Drop)]
pub(crate) struct Rest<'t> {
    pub body: String,
    /// Whether the item ends as it should.
    pub is_ended: bool,
    /// What is left from the `{` on of the braces that the item ends with, if it ends with braces.
    pub block: Option<Cursor<'t>>,
    /// Where these stand.
    pub braces: Option<TextRange>,
}

fn named_of<'t>(placed: Option<PlacedName>, text: &'t str) -> Named<'t>
    ensures { name_view result ≡ spec.name_read (option_map placed_view placed) text.now }
{
    match placed {
        Some(placed) => Named {
            name: Some(placed.name),
            hashed: without_hash(text),
            range: Some(placed.range),
        },
        None => Named {
            name: None,
            hashed: "",
            range: None,
        },
    }
}

/// Takes the name of an item, if one is written.
///
/// # Errors
///
/// Only if memory runs out.
#[tactic(auto, unfolding(crate::specs::Leaves::written_name))]
pub fn item_name<'t>(alloc: Global, cursor: &mut Cursor<'t>) -> Result<Named<'t>, AllocError>
    ensures { Gives name_view (spec.written_name cursor.old) result cursor.new }
{
    let text = cursor.text();
    let placed = placed_name(alloc, cursor)?;
    Ok(named_of(placed, text))
}

/// Takes a token, and tells where it stands.
pub(crate) fn next_range(cursor: &mut Cursor<'_>) -> TextRange
    ensures value { result ≡ spec.next_range cursor.old }
    ensures rest { cursor.new ≡ bumped cursor.old }
{
    let start = cursor.at();
    cursor.bump();
    let end = cursor.last_end();
    TextRange { start, end }
}

/// Takes the name of an item, which may be this keyword: `self` of a crate, `try` of a macro.
#[tactic(auto, unfolding(crate::specs::Leaves::named_or))]
pub(crate) fn item_name_or<'t>(
    alloc: Global,
    cursor: &mut Cursor<'t>,
    keyword: &str,
) -> Result<Named<'t>, AllocError>
    ensures { Gives name_view (spec.named_or keyword.now cursor.old) result cursor.new }
{
    let hashed = cursor.word();
    if hashed != keyword {
        return item_name(alloc, cursor);
    }
    let name = Name::new(String::from_str(alloc, hashed)?);
    let range = Some(next_range(cursor));
    Ok(Named {
        name,
        hashed,
        range,
    })
}

/// Where braces stand, from their `{` up to a place.
pub(crate) fn range_to(end: usize, block: &Option<Cursor<'_>>) -> Option<TextRange>
    ensures { result ≡ spec.range_to end block.now }
{
    match block {
        Some(block) => {
            let start = block.at();
            Some(TextRange { start, end })
        }
        None => None,
    }
}

/// The rest of an item that ends at a place.
fn rest_up_to<'t>(excerpt: Excerpt<'t>, end: usize) -> Rest<'t>
    ensures { rest_view result ≡ spec.rest_read (excerpt_view excerpt.entry) end }
{
    let braces = range_to(end, &excerpt.block);
    Rest {
        body: excerpt.text,
        is_ended: excerpt.is_ended,
        block: excerpt.block,
        braces,
    }
}

/// Takes what is left of an item up to its end, by its word, and keeps its text where that is asked for.
#[tactic(auto, using(crate::proofs::ClippedLeaves::rest_clipped))]
pub(crate) fn take_rest<'t>(
    alloc: Global,
    cursor: &mut Cursor<'t>,
    keeps_body: bool,
    head: Head,
) -> Result<Rest<'t>, AllocError>
    ensures { Gives rest_view
        (with_value (clipped_rest keeps_body) (rest_of head cursor.old)) result cursor.new }
{
    let excerpt = match head {
        Head::Impl => cursor.impl_rest(alloc, keeps_body),
        Head::Plain(PlainKind::MacroDef) => cursor.macro_rest(alloc, keeps_body),
        Head::Const | Head::Plain(PlainKind::Static | PlainKind::TypeAlias) => {
            cursor.value_rest(alloc, keeps_body)
        }
        _ => cursor.item_rest(alloc, keeps_body),
    }?;
    Ok(rest_up_to(excerpt, cursor.last_end()))
}

fn no_call<'t>(alloc: Global) -> Rest<'t>
    ensures { rest_view result ≡ spec.bare_end false }
{
    Rest {
        body: String::new(alloc),
        is_ended: false,
        block: None,
        braces: None,
    }
}

fn semicolon_end<'t>(excerpt: Excerpt<'t>, cursor: &mut Cursor<'t>) -> Rest<'t>
    ensures { spec.semicolon_end (excerpt_view excerpt.entry) cursor.old
        ≡ (rest_view result, cursor.new) }
{
    let semicolon = cursor.eat(b';');
    Rest {
        body: excerpt.text,
        is_ended: excerpt.is_ended && semicolon,
        block: None,
        braces: None,
    }
}

/// Takes what a macro is given in its brackets, and the semicolon behind those that are no braces.
#[tactic(auto, using(crate::proofs::ClippedLeaves::call_end_clipped))]
pub(crate) fn call_end<'t>(
    alloc: Global,
    cursor: &mut Cursor<'t>,
    keeps_body: bool,
) -> Result<Rest<'t>, AllocError>
    ensures { Gives rest_view
        (with_value (clipped_rest keeps_body) (spec.call_end cursor.old)) result cursor.new }
{
    if !cursor.is_at_open() {
        return Ok(no_call(alloc));
    }
    let is_braced = cursor.symbol() == b'{';
    let excerpt = cursor.tree_body(alloc, keeps_body)?;
    if is_braced {
        return Ok(rest_up_to(excerpt, cursor.last_end()));
    }
    Ok(semicolon_end(excerpt, cursor))
}

/// The inner attributes at the beginning of the braces that an item ends with, as far as they are kept.
#[tactic(auto, unfolding(crate::specs::Leaves::block_attributes), using(rust_metas::proofs::KeptMetas::kept_none))]
fn block_attributes(
    alloc: Global,
    block: Option<Cursor<'_>>,
    wanted: WantedMetas,
) -> Result<Vec<Meta>, AllocError>
    ensures { IfOk result (λ v. map meta_view v.items
        ≡ kept_metas wanted (spec.block_attributes block.entry)) }
{
    match block {
        Some(mut inside) => {
            inside.bump();
            kept_inner_attributes(alloc, &mut inside, wanted)
        }
        None => Ok(Vec::new(alloc)),
    }
}

/// Attributes with others behind.
///
/// # Errors
///
/// Only if memory runs out.
pub fn join_attributes(mut attrs: Vec<Meta>, mut more: Vec<Meta>) -> Result<Vec<Meta>, AllocError>
    ensures { IfOk result (λ v. map meta_view v.items ≡ map meta_view attrs.items
        ++ map meta_view more.items) }
{
    attrs.append(&mut more)?;
    Ok(attrs)
}

/// Attributes with the inner ones of an item's block behind, as far as these are kept.
pub(crate) fn with_inner(
    alloc: Global,
    attrs: Vec<Meta>,
    block: Option<Cursor<'_>>,
    wanted: WantedMetas,
) -> Result<Vec<Meta>, AllocError>
    ensures { IfOk result (λ v. map meta_view v.items ≡ map meta_view attrs.items
        ++ kept_metas wanted (spec.block_attributes block.entry)) }
{
    let inner = block_attributes(alloc, block, wanted)?;
    join_attributes(attrs, inner)
}

/// Attributes with those inner ones of an item's block behind that are the item's own, as far as these are kept.
#[tactic(auto, using(crate::proofs::ClippedLeaves::none_behind))]
pub(crate) fn with_own(
    alloc: Global,
    kind: PlainKind,
    attrs: Vec<Meta>,
    block: Option<Cursor<'_>>,
    wanted: WantedMetas,
) -> Result<Vec<Meta>, AllocError>
    ensures { IfOk result (λ v. map meta_view v.items ≡ map meta_view attrs.items
        ++ kept_metas wanted (own_attributes kind block.entry)) }
{
    match kind {
        PlainKind::Fn | PlainKind::Trait => with_inner(alloc, attrs, block, wanted),
        _ => Ok(attrs),
    }
}
