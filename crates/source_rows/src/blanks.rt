//! The blanks between the tokens of a header: those that rustfmt writes. They are told by the tokens alone, and not by
//! what stands in the text, so that a header in two layouts is one label where texts are compared.

ghost use Rattle.std.specs.Prelude.{◌≡◌};
ghost use Rattle.rust_cursor.specs.Angles.{is_lifetime};
ghost use Rattle.rust_cursor.specs.Brackets.{behind_tree};
ghost use Rattle.source_rows.specs.Blanks as spec;

use rust_cursor::{Cursor, is_among};
use rust_lexer::TokenKind;

/// What the last token is to what follows it.
#[derive(Clone, Copy)]
pub(crate) enum Last {
    /// A bracket that opens, or a mark in front, as `&`.
    Opening,
    /// The first of two tokens that are one mark, as `->`.
    Half,
    /// A word or a mark from which all stands apart, as `dyn` or `+`.
    Apart,
    /// The end of a name, a type or a value.
    End,
}

/// Where in a header the next token stands.
#[derive(Clone, Copy)]
pub(crate) struct Spacing {
    pub(crate) last: Last,
    /// Up to where brackets reach.
    pub(crate) reach: usize,
    /// Up to where braces reach, with values in them.
    pub(crate) values: usize,
    /// Up to where angle brackets in these reach, with types in them.
    pub(crate) types: usize,
}

/// The words from which all stands apart, beside `for`.
const WORDS_APART: [&str; 11] = [
    "as", "const", "dyn", "if", "impl", "in", "let", "match", "mut", "return", "while",
];

pub(crate) fn first_spacing() -> Spacing
    ensures { result ≡ spec.first_spacing }
{
    Spacing {
        last: Last::Opening,
        reach: 0,
        values: 0,
        types: 0,
    }
}

fn is_behind_end(last: Last) -> bool
    ensures { result ≡ spec.is_behind_end last }
{
    matches!(last, Last::End)
}

/// Whether a value comes next, or what stands between values.
fn is_value(spacing: Spacing, cursor: &Cursor<'_>) -> bool
    ensures { result ≡ spec.is_value spacing cursor.now }
{
    let past = cursor.last_end();
    past < spacing.values && past >= spacing.types
}

/// Whether the `!` of a macro call comes next.
fn is_call(cursor: &Cursor<'_>) -> bool
    ensures { result ≡ spec.is_call_mark cursor.now }
{
    cursor.symbol() == b'!' && cursor.second().is_at_open()
}

fn has_empty_braces(cursor: &Cursor<'_>) -> bool
    ensures { result ≡ spec.has_empty_braces cursor.now }
{
    cursor.symbol() == b'{' && cursor.second().symbol() == b'}'
}

fn takes_equals(symbol: u8) -> bool
    ensures { result ≡ spec.takes_equals symbol }
{
    matches!(
        symbol,
        b'!' | b'%' | b'&' | b'*' | b'+' | b'-' | b'/' | b'<' | b'=' | b'>' | b'^' | b'|'
    )
}

fn takes_itself(symbol: u8) -> bool
    ensures { result ≡ spec.takes_itself symbol }
{
    matches!(symbol, b'&' | b'<' | b'>' | b'|')
}

/// Whether a mark of two tokens comes next that stands between values.
fn is_operator(cursor: &Cursor<'_>) -> bool
    ensures { result ≡ spec.is_operator cursor.now }
{
    let symbol = cursor.symbol();
    if takes_equals(symbol) && cursor.is_pair(symbol, b'=') {
        return true;
    }
    takes_itself(symbol) && cursor.is_pair(symbol, symbol)
}

/// Whether another mark of two tokens comes next.
fn is_double(cursor: &Cursor<'_>) -> bool
    ensures { result ≡ spec.is_double cursor.now }
{
    if cursor.is_pair(b':', b':') || cursor.is_pair(b'-', b'>') {
        return true;
    }
    cursor.is_pair(b'=', b'>') || cursor.is_pair(b'.', b'.')
}

fn is_half(spacing: Spacing, cursor: &Cursor<'_>) -> bool
    ensures { result ≡ spec.is_half spacing cursor.now }
{
    if is_double(cursor) || has_empty_braces(cursor) {
        return true;
    }
    is_behind_end(spacing.last) && is_value(spacing, cursor) && is_operator(cursor)
}

fn is_lifetime(kind: Option<TokenKind>) -> bool
    ensures { result ≡ is_lifetime kind }
{
    matches!(kind, Some(TokenKind::Lifetime | TokenKind::RawLifetime))
}

fn is_word_apart(cursor: &Cursor<'_>) -> bool
    ensures { result ≡ spec.is_word_apart cursor.now }
{
    if is_lifetime(cursor.kind()) || cursor.is_lone_for() {
        return true;
    }
    is_among(cursor.word(), &WORDS_APART)
}

fn is_prefix(symbol: u8) -> bool
    ensures { result ≡ spec.is_prefix symbol }
{
    matches!(symbol, b'!' | b'#' | b'&' | b'*' | b'-' | b'?')
}

fn opens_part(spacing: Spacing, cursor: &Cursor<'_>) -> bool
    ensures { result ≡ spec.opens_part spacing cursor.now }
{
    let symbol = cursor.symbol();
    if matches!(symbol, b'(' | b'.' | b'[') {
        return true;
    }
    if !is_behind_end(spacing.last) {
        return symbol == b'<' || is_prefix(symbol);
    }
    symbol == b'<' && !is_value(spacing, cursor)
}

fn ends_part(spacing: Spacing, cursor: &Cursor<'_>) -> bool
    ensures { result ≡ spec.ends_part spacing cursor.now }
{
    match cursor.symbol() {
        b')' | b']' | b'}' => true,
        b'>' => !is_value(spacing, cursor),
        _ => is_call(cursor),
    }
}

fn behind_word(cursor: &Cursor<'_>) -> Last
    ensures { result ≡ spec.behind_word cursor.now }
{
    if is_word_apart(cursor) {
        Last::Apart
    } else {
        Last::End
    }
}

fn behind_half(symbol: u8) -> Last
    ensures { result ≡ spec.behind_half symbol }
{
    match symbol {
        b'.' | b':' => Last::Opening,
        _ => Last::Apart,
    }
}

fn behind_sign(spacing: Spacing, cursor: &Cursor<'_>) -> Last
    ensures { result ≡ spec.behind_sign spacing cursor.now }
{
    if is_half(spacing, cursor) {
        return Last::Half;
    }
    if opens_part(spacing, cursor) {
        return Last::Opening;
    }
    if ends_part(spacing, cursor) {
        return Last::End;
    }
    Last::Apart
}

fn behind_whole(spacing: Spacing, cursor: &Cursor<'_>) -> Last
    ensures { result ≡ spec.behind_whole spacing cursor.now }
{
    if cursor.symbol() == 0 {
        return behind_word(cursor);
    }
    behind_sign(spacing, cursor)
}

fn last_behind(spacing: Spacing, cursor: &Cursor<'_>) -> Last
    ensures { result ≡ spec.last_behind spacing.last spacing cursor.now }
{
    match spacing.last {
        Last::Half => behind_half(cursor.symbol()),
        Last::Opening | Last::Apart | Last::End => behind_whole(spacing, cursor),
    }
}

fn past_tree(cursor: &Cursor<'_>) -> usize
    ensures { result ≡ (behind_tree cursor.now).past }
{
    let mut behind = cursor.look_ahead();
    behind.pass_tree();
    behind.last_end()
}

/// Up to where brackets reach behind the next token.
fn reach_behind(reach: usize, cursor: &Cursor<'_>) -> usize
    ensures { result ≡ spec.reach_behind reach cursor.now }
{
    if cursor.last_end() < reach || !cursor.is_at_open() {
        return reach;
    }
    past_tree(cursor)
}

/// The same of braces.
fn values_behind(values: usize, cursor: &Cursor<'_>) -> usize
    ensures { result ≡ spec.values_behind values cursor.now }
{
    if cursor.last_end() < values || cursor.symbol() != b'{' {
        return values;
    }
    past_tree(cursor)
}

/// And of angle brackets in these.
fn types_behind(spacing: Spacing, cursor: &Cursor<'_>) -> usize
    ensures { result ≡ spec.types_behind spacing cursor.now }
{
    if cursor.symbol() != b'<' || !is_value(spacing, cursor) || is_behind_end(spacing.last) {
        return spacing.types;
    }
    let mut behind = cursor.look_ahead();
    behind.pass_angles();
    behind.last_end()
}

/// Where what follows the next token stands.
pub(crate) fn spacing_behind(spacing: Spacing, cursor: &Cursor<'_>) -> Spacing
    ensures { result ≡ spec.spacing_behind spacing cursor.now }
{
    Spacing {
        last: last_behind(spacing, cursor),
        reach: reach_behind(spacing.reach, cursor),
        values: values_behind(spacing.values, cursor),
        types: types_behind(spacing, cursor),
    }
}

fn clings(spacing: Spacing, cursor: &Cursor<'_>) -> bool
    ensures { result ≡ spec.clings spacing cursor.now }
{
    match cursor.symbol() {
        b')' | b',' | b';' | b']' => true,
        b':' => !cursor.is_pair(b':', b':'),
        b'>' => !is_value(spacing, cursor),
        _ => false,
    }
}

fn clings_to_end(spacing: Spacing, cursor: &Cursor<'_>) -> bool
    ensures { result ≡ spec.clings_to_end spacing cursor.now }
{
    match cursor.symbol() {
        b'(' | b'.' | b':' | b'[' => true,
        b'<' => !is_value(spacing, cursor),
        _ => is_call(cursor),
    }
}

/// Whether the next token stands at once behind the last.
pub(crate) fn stands_close(spacing: Spacing, cursor: &Cursor<'_>) -> bool
    ensures { result ≡ spec.stands_close spacing.last spacing cursor.now }
{
    match spacing.last {
        Last::Opening | Last::Half => true,
        Last::Apart => clings(spacing, cursor),
        Last::End => clings(spacing, cursor) || clings_to_end(spacing, cursor),
    }
}
