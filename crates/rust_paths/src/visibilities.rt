//! Visibilities.

ghost use Rattle.std.specs.Prelude.{◌≡◌};
ghost use Rattle.rust_cursor.specs.Elements.{most_tokens};
ghost use Rattle.rust_cursor.specs.Grammar.{reads};
ghost use Rattle.rust_cursor.specs.Looks.{past_from, sees};
ghost use Rattle.rust_cursor.specs.Reader.{Gives};
ghost use Rattle.rust_cursor.specs.Words.{bumped};
ghost use Rattle.rust_paths.specs.Visibilities as spec;

use crate::paths::path;
use hir_input::ast::{PathNode, Visibility};
use hir_input::{ModPath, PathKind};
use rust_cursor::Cursor;
use std::alloc::{AllocError, Global};

/// What `in` and this path are: `crate`, `self` or `super` alone are what they are without `in`.
#[tactic(auto, unfolding(crate::specs::Visibilities::in_readable))]
fn in_readable(path: ModPath) -> Visibility
    ensures { result ≡ spec.in_readable path }
{
    if !path.segments().is_empty() {
        return Visibility::InPath(PathNode::Readable(path));
    }
    match path.kind() {
        PathKind::Crate => Visibility::PubCrate,
        PathKind::Super(0) => Visibility::PubSelf,
        PathKind::Super(1) => Visibility::PubSuper,
        _ => Visibility::InPath(PathNode::Readable(path)),
    }
}

fn in_path(path: Option<PathNode>) -> Visibility
    ensures { result ≡ spec.in_path path }
{
    match path {
        Some(PathNode::Readable(path)) => in_readable(path),
        Some(PathNode::Unreadable) => Visibility::InPath(PathNode::Unreadable),
        None => Visibility::Pub,
    }
}

#[tactic(auto, unfolding(crate::specs::Visibilities::scope_of))]
fn scope_of(word: &str) -> Option<Visibility>
    ensures { result ≡ spec.scope_of word.now }
{
    match word {
        "crate" => Some(Visibility::PubCrate),
        "super" => Some(Visibility::PubSuper),
        "self" => Some(Visibility::PubSelf),
        _ => None,
    }
}

/// The visibility of the word in the bracket that comes next, or none.
#[tactic(auto, unfolding(crate::specs::Visibilities::scope))]
fn scope(cursor: &Cursor<'_>) -> Option<Visibility>
    ensures { result ≡ spec.scope cursor.now }
{
    let mut ahead = cursor.second();
    let word = ahead.word();
    ahead.bump();
    if ahead.symbol() != b')' {
        return None;
    }
    scope_of(word)
}

/// Whether `in` is the first in the bracket that comes next.
#[tactic(auto, unfolding(crate::specs::Visibilities::is_in))]
fn is_in(cursor: &Cursor<'_>) -> bool
    ensures { result ≡ spec.is_in cursor.now }
{
    cursor.second().word() == "in"
}

/// Takes a path, up to the bracket that closes; before a comma or what begins an item, where one comes first.
fn scope_path(alloc: Global, cursor: &mut Cursor<'_>) -> Result<Visibility, AllocError>
    ensures { Gives (λ v. v) (reads spec.scope_path cursor.old) result cursor.new }
{
    let path = path(alloc, cursor)?;
    cursor.pass_field();
    cursor.eat(b')');
    Ok(in_path(path))
}

/// Whether a word or a colon comes next.
fn is_path_part(cursor: &Cursor<'_>) -> bool
    ensures { result ≡ sees spec.is_path_part cursor.now }
{
    cursor.is_at_identifier() || cursor.symbol() == b':'
}

#[tactic(auto, using(crate::proofs::Steps::parts_more, crate::proofs::Steps::parts_stop))]
fn pass_parts(cursor: &mut Cursor<'_>)
    ensures { cursor.new ≡ past_from (sees spec.is_path_part) most_tokens cursor.old }
{
    let most = Cursor::most_turns();
    for _turn in 0..most {
        if !is_path_part(cursor) {
            break;
        }
        cursor.bump();
    }
}

/// Whether words and colons in brackets come next, and a word behind these.
#[tactic(auto, unfolding(crate::specs::Visibilities::is_bare_path))]
fn is_bare_path(cursor: &Cursor<'_>) -> bool
    ensures { result ≡ sees spec.is_bare_path (bumped cursor.now) }
{
    let mut ahead = cursor.second();
    pass_parts(&mut ahead);
    if ahead.symbol() != b')' {
        return false;
    }
    ahead.bump();
    ahead.is_at_identifier()
}

/// Takes a word in brackets, or a path in them before a word.
fn plain_scope(alloc: Global, cursor: &mut Cursor<'_>) -> Result<Visibility, AllocError>
    ensures { Gives (λ v. v) (spec.plain_scope (spec.scope cursor.old) cursor.old) result cursor.new }
{
    if let Some(visibility) = scope(cursor) {
        cursor.bump();
        cursor.bump();
        cursor.bump();
        return Ok(visibility);
    }
    if !is_bare_path(cursor) {
        return Ok(Visibility::Pub);
    }
    cursor.bump();
    scope_path(alloc, cursor)
}

/// Takes what goes on a visibility behind `pub`.
#[tactic(auto, using(crate::proofs::Steps::scoped_none, crate::proofs::Steps::scoped_in, crate::proofs::Steps::scoped_plain),)]
fn scoped_visibility(alloc: Global, cursor: &mut Cursor<'_>) -> Result<Visibility, AllocError>
    ensures { Gives (λ v. v) (reads spec.scoped_visibility cursor.old) result cursor.new }
{
    if cursor.symbol() != b'(' {
        return Ok(Visibility::Pub);
    }
    if is_in(cursor) {
        cursor.bump();
        cursor.bump();
        return scope_path(alloc, cursor);
    }
    plain_scope(alloc, cursor)
}

/// Takes a visibility, if one is written.
///
/// A bracket behind `pub` belongs to it where it holds `in` first, or one of `crate`, `super` and `self` alone, or a
/// path before a word: `pub(a::b) fn f() {}` is read as `pub(in a::b)`, and `struct Pair(pub (u8, u8));` has a field
/// that is `pub`. rust-analyzer's `opt_visibility`.
#[tactic(auto, unfolding(crate::specs::Visibilities::visibility))]
pub fn visibility(alloc: Global, cursor: &mut Cursor<'_>) -> Result<Option<Visibility>, AllocError>
    ensures { Gives (λ v. v) (reads spec.visibility cursor.old) result cursor.new }
{
    if cursor.word() != "pub" {
        return Ok(None);
    }
    cursor.bump();
    Ok(Some(scoped_visibility(alloc, cursor)?))
}
