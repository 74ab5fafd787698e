//! Names.

ghost use Rattle.std.specs.Prelude.{◌≡◌, Some, IfOk, option_map, string_bytes};
ghost use Rattle.rust_cursor.specs.Grammar.{reads};
ghost use Rattle.rust_cursor.specs.Looks.{sees};
ghost use Rattle.rust_cursor.specs.Reader.{Gives};
ghost use Rattle.rust_paths.specs.Inner as inner;
ghost use Rattle.rust_paths.specs.Names as spec;
ghost use Rattle.rust_paths.specs.Views.{placed_view};

use hir_input::{EditionYear, Name};
use rust_cursor::{Cursor, first_byte, has_length, is_among, last_byte, middle_byte};
use rust_lexer::TokenKind;
use std::alloc::{AllocError, Global};

/// A range of bytes of a text. text-size's `TextRange`.
#[derive(Clone, Copy, Debug, PartialEq, Eq)]
pub struct TextRange {
    pub start: usize,
    pub end: usize,
}

/// A name, and where its token stands.
#[derive(Debug, Drop)]
pub struct PlacedName {
    pub name: Name,
    pub range: TextRange,
}

/// The keywords of every edition, strict or reserved, but for those that a path may hold: `crate`, `self`, `super` and
/// `Self`.
pub const KEYWORDS: [&str; 43] = [
    "abstract", "as", "become", "box", "break", "const", "continue", "do", "else", "enum",
    "extern", "false", "final", "fn", "for", "if", "impl", "in", "let", "loop", "macro", "match",
    "mod", "move", "mut", "override", "priv", "pub", "ref", "return", "static", "struct", "trait",
    "true", "type", "typeof", "unsafe", "unsized", "use", "virtual", "where", "while", "yield",
];

/// Those that became keywords with the edition 2018.
pub const KEYWORDS_SINCE_2018: [&str; 4] = ["async", "await", "dyn", "try"];

/// And with 2024.
pub const KEYWORDS_SINCE_2024: [&str; 1] = ["gen"];

fn is_since_2018(edition: EditionYear) -> bool
    ensures { result ≡ spec.is_since_2018 edition }
{
    !matches!(edition, EditionYear::E2015)
}

fn is_since_2024(edition: EditionYear) -> bool
    ensures { result ≡ spec.is_since_2024 edition }
{
    matches!(edition, EditionYear::E2024)
}

/// Their lengths, by their first byte, a bit for each.
static KEYWORD_FIRST: [u16; 32] = [
    0, 292, 104, 288, 12, 80, 44, 8, 0, 20, 0, 0, 24, 56, 0, 256, 24, 0, 72, 64, 120, 200, 128, 32,
    0, 32, 0, 0, 0, 0, 0, 0,
];

/// And by the one in their middle.
static KEYWORD_MIDDLE: [u16; 32] = [
    0, 96, 0, 32, 0, 104, 4, 0, 0, 432, 0, 0, 32, 0, 36, 92, 16, 0, 264, 28, 224, 88, 16, 0, 0, 40,
    0, 0, 0, 0, 0, 0,
];

/// And by their last.
static KEYWORD_LAST: [u16; 32] = [
    0, 0, 8, 96, 168, 376, 76, 0, 32, 0, 0, 32, 176, 16, 76, 36, 16, 0, 8, 4, 360, 0, 16, 0, 8, 8,
    0, 0, 0, 0, 0, 0,
];

/// Whether a word may be one of all these, by its length and three of its bytes. It is a quick test: most names fail
/// it, and no keyword of any edition does.
#[inline(always)]
pub fn may_be_keyword(word: &str) -> bool
    ensures { result ≡ spec.may_be_keyword word.now }
{
    has_length(&KEYWORD_FIRST, first_byte(word), word)
        && has_length(&KEYWORD_MIDDLE, middle_byte(word), word)
        && has_length(&KEYWORD_LAST, last_byte(word), word)
}

#[tactic(auto, unfolding(crate::specs::Names::is_keyword))]
fn is_keyword_among(edition: EditionYear, word: &str) -> bool
    ensures { result ≡ spec.is_keyword edition word.now }
{
    if is_among(word, &KEYWORDS) {
        return true;
    }
    if is_among(word, &KEYWORDS_SINCE_2018) {
        return is_since_2018(edition);
    }
    if is_among(word, &KEYWORDS_SINCE_2024) {
        return is_since_2024(edition);
    }
    false
}

/// Whether the word is a keyword of the edition, but for those that a path may hold.
#[tactic(auto, using(crate::proofs::Naming::no_keyword))]
fn is_keyword(edition: EditionYear, word: &str) -> bool
    ensures { result ≡ spec.is_keyword edition word.now }
{
    // Most names are told by their length and three bytes.
    if !may_be_keyword(word) {
        return false;
    }
    is_keyword_among(edition, word)
}

/// The lengths of the keywords that a path may hold, by their first byte.
static PATH_FIRST: [u16; 32] = [
    0, 0, 0, 32, 0, 0, 0, 0, 0, 0, 0, 0, 0, 0, 0, 0, 0, 0, 0, 48, 0, 0, 0, 0, 0, 0, 0, 0, 0, 0, 0,
    0,
];

/// Whether a word may be one of these, by its length and its first byte.
#[inline(always)]
fn may_be_path_keyword(word: &str) -> bool
    ensures { result ≡ inner.may_be_path_keyword word.now }
{
    has_length(&PATH_FIRST, first_byte(word), word)
}

#[tactic(auto, unfolding(crate::specs::Names::is_path_keyword))]
fn is_path_keyword_among(word: &str) -> bool
    ensures { result ≡ spec.is_path_keyword word.now }
{
    matches!(word, "crate" | "self" | "super" | "Self")
}

/// Whether the word is a keyword that a path may hold: `crate`, `self`, `super` or `Self`.
#[tactic(auto, using(crate::proofs::Naming::no_path_keyword))]
pub fn is_path_keyword(word: &str) -> bool
    ensures { result ≡ spec.is_path_keyword word.now }
{
    // Most names are told by their length and their first byte.
    if !may_be_path_keyword(word) {
        return false;
    }
    is_path_keyword_among(word)
}

#[tactic(auto, unfolding(crate::specs::Names::plain_name))]
fn plain_name(edition: EditionYear, word: &str) -> Option<&str>
    ensures { option_map (λ name. name.now) result ≡ spec.plain_name edition word.now }
{
    if is_keyword(edition, word) {
        return None;
    }
    if is_path_keyword(word) {
        return None;
    }
    if word == "_" {
        return None;
    }
    Some(word)
}

/// What stands behind `r#`, if that comes first.
pub fn behind_hash(text: &str) -> Option<&str>
    ensures { option_map (λ word. word.now) result ≡ spec.behind_hash text.now }
{
    match text.strip_prefix('r') {
        Some(rest) => rest.strip_prefix('#'),
        None => None,
    }
}

#[tactic(auto, unfolding(crate::specs::Names::raw_name))]
fn raw_name(text: &str) -> Option<&str>
    ensures { option_map (λ name. name.now) result ≡ spec.raw_name text.now }
{
    let word = behind_hash(text)?;
    if is_path_keyword(word) {
        return None;
    }
    if word == "_" {
        return None;
    }
    Some(word)
}

fn name_text(edition: EditionYear, kind: Option<TokenKind>, text: &str) -> Option<&str>
    ensures { option_map (λ name. name.now) result ≡ spec.name_text edition kind text.now }
{
    match kind {
        Some(TokenKind::Ident) => plain_name(edition, text),
        Some(TokenKind::RawIdent) => raw_name(text),
        _ => None,
    }
}

/// Whether a name of the text's edition comes next.
#[tactic(auto, unfolding(crate::specs::Names::has_name))]
pub fn has_name(cursor: &Cursor<'_>) -> bool
    ensures { result ≡ sees spec.has_name cursor.now }
{
    name_text(cursor.edition(), cursor.kind(), cursor.text()).is_some()
}

/// The name that comes next.
#[tactic(auto, unfolding(crate::specs::Names::next_name), using(crate::proofs::Naming::by_kind))]
pub(crate) fn next_name(alloc: Global, cursor: &Cursor<'_>) -> Result<Option<Name>, AllocError>
    ensures { IfOk result (λ name. name ≡ spec.next_name cursor.now) }
{
    match name_text(cursor.edition(), cursor.kind(), cursor.text()) {
        Some(text) => Ok(Name::new(String::from_str(alloc, text)?)),
        None => Ok(None),
    }
}

/// Takes a name, if one comes next: an identifier that is no keyword of the text's edition and not `_`, or a raw
/// identifier.
#[tactic(auto, unfolding(crate::specs::Names::name, crate::specs::Names::next_name))]
pub fn name(alloc: Global, cursor: &mut Cursor<'_>) -> Result<Option<Name>, AllocError>
    ensures { Gives (λ name. name) (reads spec.name cursor.old) result cursor.new }
{
    match next_name(alloc, cursor)? {
        Some(name) => {
            cursor.bump();
            Ok(Some(name))
        }
        None => Ok(None),
    }
}

/// Takes a name as [`name`] does, and tells where it stands.
#[tactic(auto, unfolding(crate::specs::Names::placed_name))]
pub fn placed_name(alloc: Global, cursor: &mut Cursor<'_>) -> Result<Option<PlacedName>, AllocError>
    ensures { Gives (option_map placed_view) (spec.placed_name cursor.old) result cursor.new }
{
    let start = cursor.at();
    match name(alloc, cursor)? {
        Some(name) => {
            let end = cursor.last_end();
            let range = TextRange { start, end };
            Ok(Some(PlacedName { name, range }))
        }
        None => Ok(None),
    }
}
