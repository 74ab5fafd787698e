//! Attributes.

ghost use Rattle.std.specs.Prelude.{◌≡◌, [], IsTrue, false, if◌then◌else◌, map, option_map, option_to_list};
ghost use Rattle.hir_input.specs.Attr.{meta_view};
ghost use Rattle.rust_cursor.specs.Anchored.{reads_from};
ghost use Rattle.rust_cursor.specs.Elements.{one};
ghost use Rattle.rust_cursor.specs.Looks.{sees};
ghost use Rattle.rust_cursor.specs.Reader.{Gives};
ghost use Rattle.rust_cursor.specs.Words.{bumped};
ghost use Rattle.rust_metas.specs.Attributes as spec;
ghost use Rattle.rust_metas.specs.Docs as docs;

use crate::literal::style_by;
use crate::meta::{doc, meta};
use crate::unread::pass_unread;
use crate::wanted::WantedMetas;
use hir_input::Meta;
use hir_input::ast::PathNode;
use rust_cursor::{Cursor, push_some};
use rust_lexer::DocStyle;
use std::alloc::{AllocError, Global};

fn is_style(style: DocStyle, found: Option<DocStyle>) -> bool
    ensures { result ≡ spec.is_style style found }
{
    match (style, found) {
        (DocStyle::Outer, Some(DocStyle::Outer)) => true,
        (DocStyle::Inner, Some(DocStyle::Inner)) => true,
        _ => false,
    }
}

/// Whether a documentation comment of the style comes next.
#[tactic(auto, unfolding(crate::specs::Attributes::is_doc))]
fn is_doc(cursor: &Cursor<'_>, style: DocStyle) -> bool
    ensures { result ≡ sees (spec.is_doc style) cursor.now }
{
    is_style(style, style_by(cursor.kind()))
}

/// Passes over the `#`, and the `!` of an inner attribute.
pub(crate) fn pass_mark(cursor: &mut Cursor<'_>, style: DocStyle)
    ensures { cursor.new ≡ spec.past_mark style cursor.old }
{
    cursor.bump();
    if style == DocStyle::Inner {
        cursor.bump();
    }
}

/// Whether `#[` comes next, or `#![`.
#[tactic(auto, unfolding(crate::specs::Attributes::is_attribute))]
fn is_attribute(cursor: &Cursor<'_>, style: DocStyle) -> bool
    ensures { result ≡ sees (spec.is_attribute style) cursor.now }
{
    if cursor.symbol() != b'#' {
        return false;
    }
    let mut ahead = cursor.second();
    match style {
        DocStyle::Outer => ahead.symbol() == b'[',
        DocStyle::Inner => {
            if ahead.symbol() != b'!' {
                return false;
            }
            ahead.bump();
            ahead.symbol() == b'['
        }
    }
}

/// Whether no attribute of the style comes next.
#[tactic(auto, unfolding(crate::specs::Attributes::is_behind))]
fn is_behind(cursor: &Cursor<'_>, style: DocStyle) -> bool
    ensures { result ≡ sees (spec.is_behind style) cursor.now }
{
    !(is_doc(cursor, style) || is_attribute(cursor, style))
}

/// A meta in its bracket. What stands behind it there is passed over, but for a word that can begin an item only.
#[tactic(auto, unfolding(crate::specs::Attributes::bracketed_meta))]
fn bracketed_meta(alloc: Global, cursor: &mut Cursor<'_>, anchor: usize) -> Result<Meta, AllocError>
    ensures { Gives meta_view (reads_from anchor spec.bracketed_meta cursor.old) result cursor.new }
{
    cursor.bump();
    let meta = meta(alloc, cursor, anchor, 128)?;
    if !cursor.begins_item() {
        cursor.pass_closed(b'[');
    }
    Ok(meta)
}

#[tactic(auto, unfolding(crate::specs::Attributes::one_attribute, crate::specs::Metas::doc, crate::specs::Literals::documentation),)]
fn one_attribute(
    alloc: Global,
    cursor: &mut Cursor<'_>,
    anchor: usize,
    style: DocStyle,
) -> Result<Meta, AllocError>
    ensures { Gives meta_view (reads_from anchor (spec.one_attribute style) cursor.old) result cursor.new }
{
    if is_doc(cursor, style) {
        return doc(alloc, cursor, anchor);
    }
    pass_mark(cursor, style);
    bracketed_meta(alloc, cursor, anchor)
}

#[tactic(auto, unfolding(crate::specs::Attributes::behind_docs), using(crate::proofs::Docs::docs_more, crate::proofs::Docs::docs_stop),)]
fn pass_docs(cursor: &mut Cursor<'_>)
    ensures { cursor.new ≡ spec.behind_docs cursor.old }
{
    let most = Cursor::most_turns();
    for _turn in 0..most {
        if !is_doc(cursor, DocStyle::Inner) {
            break;
        }
        cursor.bump();
    }
}

fn pass_behind(cursor: &mut Cursor<'_>, style: DocStyle)
    ensures { cursor.new ≡ spec.behind_attribute style cursor.old }
{
    match style {
        DocStyle::Outer => pass_docs(cursor),
        DocStyle::Inner => {}
    }
}

/// An attribute, and inner documentation behind an outer one, which documents nothing.
#[tactic(auto, unfolding(crate::specs::Attributes::attribute))]
fn attribute(alloc: Global, cursor: &mut Cursor<'_>, style: DocStyle) -> Result<Meta, AllocError>
    ensures { Gives meta_view (spec.attribute style cursor.old) result cursor.new }
{
    let start = cursor.at();
    let meta = one_attribute(alloc, cursor, start, style)?;
    pass_behind(cursor, style);
    Ok(meta)
}

fn is_doc_path(path: &Option<PathNode>) -> bool
    ensures { result ≡ docs.is_doc_path path.now }
{
    match path {
        Some(PathNode::Readable(path)) => match path.as_ident() {
            Some(name) => name.text() == "doc",
            None => false,
        },
        _ => false,
    }
}

/// Whether a meta documents.
#[tactic(auto, using(hir_input::proofs::MetaLemmas::meta_views))]
fn is_doc_meta(meta: &Meta) -> bool
    ensures { result ≡ docs.is_doc_meta (meta_view meta.now) }
{
    match meta {
        Meta::Path { path, .. } | Meta::KeyValue { path, .. } | Meta::TokenTree { path, .. } => {
            is_doc_path(path)
        }
        _ => false,
    }
}

/// Whether a meta tells a condition, or one may stand in it.
#[tactic(auto, using(hir_input::proofs::MetaLemmas::meta_views))]
fn is_condition_meta(meta: &Meta) -> bool
    ensures { result ≡ docs.is_condition_meta (meta_view meta.now) }
{
    matches!(meta, Meta::Cfg(_) | Meta::CfgAttr { .. } | Meta::Unsafe(_))
}

fn is_wanted_meta(meta: &Meta, wanted: WantedMetas) -> bool
    ensures { result ≡ docs.is_wanted_meta wanted (meta_view meta.now) }
{
    match wanted {
        WantedMetas::All => true,
        WantedMetas::Undocumented => !is_doc_meta(meta),
        WantedMetas::Conditions => is_condition_meta(meta),
    }
}

/// Passes over a documentation comment of the style, and what stands behind it. Something else is left where it is.
fn pass_doc(cursor: &mut Cursor<'_>, style: DocStyle) -> bool
    ensures told { result ≡ sees (spec.is_doc style) cursor.old }
    ensures passed { cursor.new
        ≡ (if result then spec.behind_attribute style (bumped cursor.old) else cursor.old) }
{
    if !is_doc(cursor, style) {
        return false;
    }
    cursor.bump();
    pass_behind(cursor, style);
    true
}

/// Passes over an attribute that plainly is not wanted, without reading it. Another is left where it is.
fn pass_unwanted(cursor: &mut Cursor<'_>, style: DocStyle, wanted: WantedMetas) -> bool
    ensures passed { IsTrue result
        → docs.kept_by wanted (one (spec.attribute style)) cursor.old ≡ ([], cursor.new) }
    ensures left { result ≡ false → cursor.new ≡ cursor.old }
{
    match wanted {
        WantedMetas::All => false,
        WantedMetas::Undocumented => pass_doc(cursor, style),
        WantedMetas::Conditions => {
            if pass_doc(cursor, style) {
                return true;
            }
            if pass_unread(cursor, style) {
                pass_behind(cursor, style);
                return true;
            }
            false
        }
    }
}

/// An attribute, if it is wanted.
#[tactic(auto, using(crate::proofs::KeptMetas::meta_kept, crate::proofs::KeptMetas::meta_dropped))]
fn kept_attribute(
    alloc: Global,
    cursor: &mut Cursor<'_>,
    style: DocStyle,
    wanted: WantedMetas,
) -> Result<Option<Meta>, AllocError>
    ensures { Gives (λ m. option_to_list (option_map meta_view m))
        (docs.kept_by wanted (one (spec.attribute style)) cursor.old) result cursor.new }
{
    if pass_unwanted(cursor, style, wanted) {
        return Ok(None);
    }
    let meta = attribute(alloc, cursor, style)?;
    if !is_wanted_meta(&meta, wanted) {
        return Ok(None);
    }
    Ok(Some(meta))
}

/// The attributes of a style that come next, as far as they are kept.
#[tactic(auto, using(rust_cursor::proofs::Turns::turns_stop))]
fn attributes(
    alloc: Global,
    cursor: &mut Cursor<'_>,
    style: DocStyle,
    wanted: WantedMetas,
) -> Result<Vec<Meta>, AllocError>
    ensures { Gives (λ v. map meta_view v.items)
        (docs.kept_by wanted (spec.attributes style) cursor.old) result cursor.new }
{
    let mut metas = Vec::new(alloc);
    let most = Cursor::most_turns();
    for _turn in 0..most {
        if is_behind(cursor, style) {
            break;
        }
        let past = cursor.last_end();
        let meta = kept_attribute(alloc, cursor, style, wanted)?;
        push_some(&mut metas, meta)?;
        cursor.pass_beyond(past);
    }
    Ok(metas)
}

/// Takes the outer attributes that come next, in order: those in `#[..]`, and the comments `///` and `/** .. */` as
/// `doc = ".."`. What is no meta in its bracket is one without a path.
///
/// Spans count from the first byte of the attribute that the literal stands in.
///
/// # Errors
///
/// Only if memory runs out. The cursor may then stand anywhere.
#[tactic(auto, unfolding(crate::specs::Docs::kept_metas))]
pub fn outer_attributes(alloc: Global, cursor: &mut Cursor<'_>) -> Result<Vec<Meta>, AllocError>
    ensures { Gives (λ v. map meta_view v.items)
        (spec.outer_attributes cursor.old) result cursor.new }
{
    kept_outer_attributes(alloc, cursor, WantedMetas::All)
}

/// Takes the inner attributes that come next, in order: those in `#![..]`, and the comments `//!` and `/*! .. */` as
/// `doc = ".."`. Spans count as in [`outer_attributes`].
///
/// # Errors
///
/// Only if memory runs out. The cursor may then stand anywhere.
#[tactic(auto, unfolding(crate::specs::Docs::kept_metas))]
pub fn inner_attributes(alloc: Global, cursor: &mut Cursor<'_>) -> Result<Vec<Meta>, AllocError>
    ensures { Gives (λ v. map meta_view v.items)
        (spec.inner_attributes cursor.old) result cursor.new }
{
    kept_inner_attributes(alloc, cursor, WantedMetas::All)
}

/// Takes the outer attributes that come next as [`outer_attributes`] does, but keeps those only that are wanted.
///
/// # Errors
///
/// Only if memory runs out. The cursor may then stand anywhere.
#[tactic(auto, unfolding(crate::specs::Attributes::outer_attributes))]
pub fn kept_outer_attributes(
    alloc: Global,
    cursor: &mut Cursor<'_>,
    wanted: WantedMetas,
) -> Result<Vec<Meta>, AllocError>
    ensures { Gives (λ v. map meta_view v.items)
        (docs.kept_by wanted spec.outer_attributes cursor.old) result cursor.new }
{
    attributes(alloc, cursor, DocStyle::Outer, wanted)
}

/// Takes the inner attributes that come next as [`inner_attributes`] does, but keeps those only that are wanted.
///
/// # Errors
///
/// Only if memory runs out. The cursor may then stand anywhere.
#[tactic(auto, unfolding(crate::specs::Attributes::inner_attributes))]
pub fn kept_inner_attributes(
    alloc: Global,
    cursor: &mut Cursor<'_>,
    wanted: WantedMetas,
) -> Result<Vec<Meta>, AllocError>
    ensures { Gives (λ v. map meta_view v.items)
        (docs.kept_by wanted spec.inner_attributes cursor.old) result cursor.new }
{
    attributes(alloc, cursor, DocStyle::Inner, wanted)
}
