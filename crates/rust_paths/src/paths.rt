//! Paths.

ghost use Rattle.std.specs.Prelude.{◌≡◌, OnOk, option_map, [], true, false};
ghost use Rattle.hir_input.specs.Words.{name_word};
ghost use Rattle.rust_cursor.specs.Grammar.{reads};
ghost use Rattle.rust_cursor.specs.Looks.{sees};
ghost use Rattle.rust_cursor.specs.Reader.{Gives};
ghost use Rattle.rust_paths.specs.Inner.{meaning, with_word, with_words};
ghost use Rattle.rust_paths.specs.Paths as spec;

use crate::meaning::PathWords;
use crate::names::{has_name, is_path_keyword, name, next_name};
use hir_input::Name;
use hir_input::ast::PathNode;
use rust_cursor::Cursor;
use rust_lexer::TokenKind;
use std::alloc::{AllocError, Global};

fn is_raw(kind: Option<TokenKind>) -> bool
    ensures { result ≡ spec.is_raw kind }
{
    matches!(kind, Some(TokenKind::RawIdent))
}

/// Whether `$crate` comes next.
#[tactic(auto, unfolding(crate::specs::Paths::is_dollar_crate))]
fn is_dollar_crate(cursor: &Cursor<'_>) -> bool
    ensures { result ≡ sees spec.is_dollar_crate cursor.now }
{
    if cursor.symbol() != b'$' {
        return false;
    }
    cursor.second().word() == "crate"
}

/// Whether a segment of a path comes next.
#[tactic(auto, unfolding(crate::specs::Paths::is_segment))]
pub fn is_segment(cursor: &Cursor<'_>) -> bool
    ensures { result ≡ sees spec.is_segment cursor.now }
{
    if is_path_keyword(cursor.word()) {
        return true;
    }
    if is_raw(cursor.kind()) {
        return true;
    }
    if has_name(cursor) {
        return true;
    }
    is_dollar_crate(cursor)
}

/// Takes a name, or a raw identifier that is none.
#[tactic(auto, unfolding(crate::specs::Names::next_name))]
fn named_word(alloc: Global, cursor: &mut Cursor<'_>) -> Result<Option<Name>, AllocError>
    ensures { Gives (option_map name_word) (reads spec.named_word cursor.old) result cursor.new }
{
    if is_raw(cursor.kind()) {
        let name = next_name(alloc, cursor)?;
        cursor.bump();
        return Ok(name);
    }
    name(alloc, cursor)
}

#[tactic(auto, unfolding(crate::specs::Paths::other_segment))]
fn other_segment(
    alloc: Global,
    cursor: &mut Cursor<'_>,
    words: &mut PathWords,
) -> Result<(), AllocError>
    ensures { OnOk result (with_word words.old (reads spec.other_segment cursor.old)
        ≡ (words.new, cursor.new)) }
{
    if cursor.symbol() == b'<' {
        cursor.pass_angles();
        words.refuse();
        return Ok(());
    }
    if is_dollar_crate(cursor) {
        cursor.bump();
        cursor.bump();
        words.refuse();
        return Ok(());
    }
    let name = named_word(alloc, cursor)?;
    words.push_or_refuse(name)
}

/// Takes a segment of a path, where one has to stand.
#[tactic(auto, unfolding(crate::specs::Paths::segment))]
fn segment(alloc: Global, cursor: &mut Cursor<'_>, words: &mut PathWords) -> Result<(), AllocError>
    ensures { OnOk result (with_word words.old (reads spec.segment cursor.old)
        ≡ (words.new, cursor.new)) }
{
    match cursor.word() {
        "self" => {
            cursor.bump();
            words.push_self();
            Ok(())
        }
        "super" => {
            cursor.bump();
            words.push_super();
            Ok(())
        }
        "crate" => {
            cursor.bump();
            words.push_crate();
            Ok(())
        }
        "Self" => {
            cursor.bump();
            words.refuse();
            Ok(())
        }
        _ => other_segment(alloc, cursor, words),
    }
}

/// Whether `::` comes next.
#[tactic(auto, unfolding(crate::specs::Paths::is_colons))]
fn is_colons(cursor: &Cursor<'_>) -> bool
    ensures { result ≡ sees spec.is_colons cursor.now }
{
    cursor.is_pair(b':', b':')
}

/// Whether the `::` of a use tree comes next that stands in front of `*` or `{`.
#[tactic(auto, unfolding(crate::specs::Paths::is_joint, crate::specs::Paths::is_colons))]
fn is_joint(cursor: &Cursor<'_>) -> bool
    ensures { result ≡ sees spec.is_joint cursor.now }
{
    if !is_colons(cursor) {
        return false;
    }
    matches!(cursor.second().second().symbol(), b'*' | b'{')
}

/// Whether a `::` comes next that belongs to a path.
#[tactic(auto, unfolding(crate::specs::Paths::is_path_colons))]
fn is_path_colons(cursor: &Cursor<'_>, in_use: bool) -> bool
    ensures { result ≡ sees (spec.is_path_colons in_use) cursor.now }
{
    if in_use {
        return is_colons(cursor) && !is_joint(cursor);
    }
    is_colons(cursor)
}

/// Whether `self` comes next with no `::` behind it.
#[tactic(auto, unfolding(crate::specs::Paths::is_last_self))]
pub(crate) fn is_last_self(cursor: &Cursor<'_>) -> bool
    ensures { result ≡ sees spec.is_last_self cursor.now }
{
    if cursor.word() != "self" {
        return false;
    }
    !is_colons(&cursor.second())
}

/// Whether a `::` comes next with another segment of the path behind it.
fn has_more(cursor: &Cursor<'_>, in_use: bool) -> bool
    ensures { result ≡ sees (spec.has_more in_use) cursor.now }
{
    if !is_path_colons(cursor, in_use) {
        return false;
    }
    if !in_use {
        return true;
    }
    !is_last_self(&cursor.second().second())
}

/// Takes `::` and a segment, as often as they come.
#[tactic(auto, unfolding(crate::specs::Paths::more_segments), using(crate::proofs::Steps::more_stop))]
fn more_segments(
    alloc: Global,
    cursor: &mut Cursor<'_>,
    in_use: bool,
    words: &mut PathWords,
) -> Result<(), AllocError>
    ensures { OnOk result (with_words words.old (reads (spec.more_segments in_use) cursor.old)
        ≡ (meaning words.new [], cursor.new)) }
{
    let most = Cursor::most_turns();
    for _turn in 0..most {
        if !has_more(cursor, in_use) {
            break;
        }
        cursor.bump();
        cursor.bump();
        segment(alloc, cursor, words)?;
    }
    Ok(())
}

#[tactic(auto, unfolding(crate::specs::Paths::is_path_start))]
fn is_path_start(cursor: &Cursor<'_>, in_use: bool) -> bool
    ensures { result ≡ sees (spec.is_path_start in_use) cursor.now }
{
    if is_path_colons(cursor, in_use) {
        return true;
    }
    is_segment(cursor)
}

#[tactic(auto, using(crate::proofs::Steps::written))]
fn written_path(
    alloc: Global,
    cursor: &mut Cursor<'_>,
    in_use: bool,
) -> Result<PathNode, AllocError>
    ensures { Gives (λ p. p) (reads (spec.written_path in_use) cursor.old) result cursor.new }
{
    let is_absolute = cursor.eat_colons();
    let mut words = PathWords::new(alloc, is_absolute);
    segment(alloc, cursor, &mut words)?;
    more_segments(alloc, cursor, in_use, &mut words)?;
    Ok(words.into_node())
}

fn path_in(
    alloc: Global,
    cursor: &mut Cursor<'_>,
    in_use: bool,
) -> Result<Option<PathNode>, AllocError>
    ensures { Gives (λ p. p) (reads (spec.path_in in_use) cursor.old) result cursor.new }
{
    if !is_path_start(cursor, in_use) {
        return Ok(None);
    }
    Ok(Some(written_path(alloc, cursor, in_use)?))
}

/// Takes a path of a visibility, of an attribute or of a macro call, if one is written.
///
/// A path is unreadable that holds `Self`, `$crate` (whose crate no text tells) or a keyword behind another segment, or
/// lacks a segment. rust-analyzer's `ModPath::from_src`.
#[tactic(auto, unfolding(crate::specs::Paths::path))]
pub fn path(alloc: Global, cursor: &mut Cursor<'_>) -> Result<Option<PathNode>, AllocError>
    ensures { Gives (λ p. p) (reads spec.path cursor.old) result cursor.new }
{
    path_in(alloc, cursor, false)
}

/// Takes the path of a use tree, if one is written. It ends before `::*`, `::{` and a last `::self`.
#[tactic(auto, unfolding(crate::specs::Paths::use_path))]
pub(crate) fn use_path(
    alloc: Global,
    cursor: &mut Cursor<'_>,
) -> Result<Option<PathNode>, AllocError>
    ensures { Gives (λ p. p) (reads spec.use_path cursor.old) result cursor.new }
{
    path_in(alloc, cursor, true)
}
