//! Metas.

ghost use Rattle.std.specs.Prelude.{◌≡◌, IfOk, Some, map};
ghost use Rattle.hir_input.specs.Attr.{meta_view};
ghost use Rattle.rust_cursor.specs.Anchored.{reads_from};
ghost use Rattle.rust_cursor.specs.Elements.{elements, one};
ghost use Rattle.rust_cursor.specs.Looks.{sees};
ghost use Rattle.rust_cursor.specs.Reader.{Gives};
ghost use Rattle.rust_cursor.specs.Words.{bumped, symbol};
ghost use Rattle.rust_metas.specs.Metas as spec;

use crate::condition::condition;
use crate::literal::{documentation, root, value};
use hir_input::ast::PathNode;
use hir_input::{Meta, ModPath, Name, PathKind, TokenTree};
use rust_cursor::Cursor;
use rust_lexer::TokenKind;
use rust_paths::{behind_hash, pass_comma, path};
use std::alloc::{AllocError, Global};

/// What stands behind a path: `=` and a value, a token tree, or nothing. A value that is no literal is left.
#[tactic(auto, unfolding(crate::specs::Metas::input), using(hir_input::proofs::MetaLemmas::meta_views))]
fn input(
    alloc: Global,
    cursor: &mut Cursor<'_>,
    anchor: usize,
    path: Option<PathNode>,
) -> Result<Meta, AllocError>
    ensures { Gives meta_view (reads_from anchor (spec.input path) cursor.old) result cursor.new }
{
    let ctxt = root();
    if cursor.symbol() == b'=' {
        cursor.bump();
        let value = value(alloc, cursor, anchor)?;
        return Ok(Meta::KeyValue { path, value, ctxt });
    }
    if cursor.is_at_open() {
        let rendered = cursor.tree_text(alloc)?;
        let tokens = TokenTree { rendered };
        return Ok(Meta::TokenTree { path, tokens, ctxt });
    }
    Ok(Meta::Path { path, ctxt })
}

/// A path and its input.
#[tactic(auto, unfolding(crate::specs::Metas::plain_meta))]
fn plain_meta(alloc: Global, cursor: &mut Cursor<'_>, anchor: usize) -> Result<Meta, AllocError>
    ensures { Gives meta_view (reads_from anchor spec.plain_meta cursor.old) result cursor.new }
{
    let path = path(alloc, cursor)?;
    input(alloc, cursor, anchor, path)
}

/// Whether the word and a bracket come next.
#[tactic(auto, unfolding(crate::specs::Metas::is_call))]
fn is_call(cursor: &Cursor<'_>, word: &str) -> bool
    ensures { result ≡ sees (spec.is_call word.now) cursor.now }
{
    if cursor.word() != word {
        return false;
    }
    cursor.second().is_at_open()
}

/// Whether the name comes next, perhaps as `r#name`.
#[tactic(auto, unfolding(crate::specs::Metas::is_at_name))]
fn is_at_name(cursor: &Cursor<'_>, name: &str) -> bool
    ensures { result ≡ sees (spec.is_at_name name.now) cursor.now }
{
    if cursor.word() == name {
        return true;
    }
    match (cursor.kind(), behind_hash(cursor.text())) {
        (Some(TokenKind::RawIdent), Some(word)) => word == name,
        _ => false,
    }
}

/// Whether the name and a bracket come next.
#[tactic(auto, unfolding(crate::specs::Metas::is_named_call))]
fn is_named_call(cursor: &Cursor<'_>, name: &str) -> bool
    ensures { result ≡ sees (spec.is_named_call name.now) cursor.now }
{
    if !is_at_name(cursor, name) {
        return false;
    }
    cursor.second().is_at_open()
}

/// Passes over a word and the bracket behind it, which it gives.
fn pass_open(cursor: &mut Cursor<'_>) -> u8
    ensures given { result ≡ symbol (bumped cursor.old) }
    ensures passed { cursor.new ≡ bumped (bumped cursor.old) }
{
    cursor.bump();
    let bracket = cursor.symbol();
    cursor.bump();
    bracket
}

/// Takes a meta. Spans count from the anchor. `depth` bounds how deep metas and conditions stand in one another.
#[cycle(metas)]
#[tactic(auto, using(crate::proofs::Depths::meta_deep, crate::proofs::Depths::meta_at, crate::proofs::Depths::meta_conditional, hir_input::proofs::MetaLemmas::meta_views,),)]
pub(crate) fn meta(
    alloc: Global,
    cursor: &mut Cursor<'_>,
    anchor: usize,
    depth: usize,
) -> Result<Meta, AllocError>
    ensures { Gives meta_view (reads_from anchor (spec.meta depth) cursor.old) result cursor.new }
{
    if depth == 0 {
        let ctxt = root();
        return Ok(Meta::Path { path: None, ctxt });
    }
    if is_call(cursor, "unsafe") {
        let bracket = pass_open(cursor);
        let inner = meta(alloc, cursor, anchor, depth - 1)?;
        cursor.pass_closed(bracket);
        return Ok(Meta::Unsafe(Box::new(alloc, inner)?));
    }
    if is_named_call(cursor, "cfg") {
        let bracket = pass_open(cursor);
        let condition = condition(alloc, cursor, depth - 1)?;
        cursor.pass_closed(bracket);
        return Ok(Meta::Cfg(condition));
    }
    if is_named_call(cursor, "cfg_attr") {
        let bracket = pass_open(cursor);
        let condition = condition(alloc, cursor, depth - 1)?;
        let metas = metas(alloc, cursor, anchor, depth - 1)?;
        cursor.pass_closed(bracket);
        return Ok(Meta::CfgAttr { condition, metas });
    }
    plain_meta(alloc, cursor, anchor)
}

/// Metas with the commas behind them, up to a bracket that closes.
#[cycle(metas)]
#[tactic(auto, unfolding(rust_cursor::specs::Elements::turns), using(rust_cursor::proofs::Turns::turns_stop))]
fn metas(
    alloc: Global,
    cursor: &mut Cursor<'_>,
    anchor: usize,
    depth: usize,
) -> Result<Vec<Meta>, AllocError>
    ensures { Gives (λ v. map meta_view v.items)
        (elements (one (reads_from anchor (spec.member (spec.meta depth)))) cursor.old) result cursor.new }
{
    let mut metas = Vec::new(alloc);
    let most = Cursor::most_turns();
    for _turn in 0..most {
        if cursor.is_at_end() {
            break;
        }
        let past = cursor.last_end();
        let meta = meta(alloc, cursor, anchor, depth)?;
        pass_comma(cursor);
        metas.push(meta)?;
        cursor.pass_beyond(past);
    }
    Ok(metas)
}

/// The path `doc`.
#[tactic(auto)]
fn doc_path(alloc: Global) -> Result<Option<PathNode>, AllocError>
    ensures { IfOk result (λ p. p ≡ Some spec.doc_path) }
{
    let Some(name) = Name::new(String::from_str(alloc, "doc")?) else {
        return Ok(None);
    };
    let mut names = Vec::new(alloc);
    names.push(name)?;
    match ModPath::from_segments(PathKind::Plain, names) {
        Some(path) => Ok(Some(PathNode::Readable(path))),
        None => Ok(None),
    }
}

/// Takes a documentation comment, as `doc = ".."`.
#[tactic(auto, unfolding(crate::specs::Metas::doc), using(hir_input::proofs::MetaLemmas::meta_views))]
pub(crate) fn doc(alloc: Global, cursor: &mut Cursor<'_>, anchor: usize) -> Result<Meta, AllocError>
    ensures { Gives meta_view (spec.doc anchor cursor.old) result cursor.new }
{
    let path = doc_path(alloc)?;
    let value = documentation(alloc, cursor, anchor)?;
    Ok(Meta::KeyValue {
        path,
        value,
        ctxt: root(),
    })
}
