//! The modifiers before the words that begin an item.

ghost use Rattle.std.specs.Prelude.{◌≡◌, ◌||◌};
ghost use Rattle.rust_cursor.specs.Grammar.{reads};
ghost use Rattle.rust_cursor.specs.Looks.{sees};
ghost use Rattle.rust_cursor.specs.Nests.{is_literal_kind};
ghost use Rattle.rust_cursor.specs.Words.{word};
ghost use Rattle.rust_leaves.specs.Heads as spec;
ghost use Rattle.rust_leaves.specs.Inner as inner;

use rust_cursor::{Cursor, first_byte, has_length, is_among};
use rust_lexer::TokenKind;

/// What may stand behind `const` as a modifier: another modifier, or the word of an item.
const BEHIND_CONST: [&str; 5] = ["fn", "unsafe", "extern", "trait", "impl"];

/// The same behind `async` and `gen`.
const BEHIND_ASYNC: [&str; 4] = ["fn", "unsafe", "safe", "extern"];

/// The same behind `unsafe`.
const BEHIND_UNSAFE: [&str; 10] = [
    "fn", "extern", "trait", "impl", "mod", "static", "type", "const", "async", "safe",
];

/// The same behind `safe`.
const BEHIND_SAFE: [&str; 3] = ["fn", "static", "extern"];

/// The same behind `default` and `final`.
const BEHIND_DEFAULT: [&str; 9] = [
    "fn", "unsafe", "const", "type", "impl", "async", "extern", "gen", "safe",
];

/// The same behind `extern`.
const BEHIND_EXTERN: [&str; 2] = ["fn", "unsafe"];

fn is_literal_kind(kind: Option<TokenKind>) -> bool
    ensures { result ≡ is_literal_kind kind }
{
    matches!(kind, Some(TokenKind::Literal(_)))
}

/// Passes over the name of an interface, if it comes next.
#[tactic(auto, unfolding(crate::specs::Heads::abi))]
pub(crate) fn pass_abi(cursor: &mut Cursor<'_>)
    ensures { cursor.new ≡ (reads spec.abi cursor.old).1 }
{
    if is_literal_kind(cursor.kind()) {
        cursor.bump();
    }
}

fn word_behind_abi<'t>(behind: &Cursor<'t>) -> &'t str
    ensures { result.now ≡ word (reads spec.abi behind.now).1 }
{
    let mut ahead = behind.look_ahead();
    pass_abi(&mut ahead);
    ahead.word()
}

#[tactic(auto, unfolding(crate::specs::Heads::follows_async))]
fn is_behind_async(behind: &Cursor<'_>) -> bool
    ensures { result ≡ spec.follows_async (word behind.now) }
{
    is_among(behind.word(), &BEHIND_ASYNC)
}

fn is_gen_modifier(cursor: &Cursor<'_>) -> bool
    ensures { result ≡ sees spec.gen_modifier cursor.now }
{
    cursor.word() == "gen" && is_behind_async(&cursor.second())
}

fn is_async_modifier(behind: &Cursor<'_>) -> bool
    ensures { result ≡ (spec.follows_async (word behind.now) || sees spec.gen_modifier behind.now) }
{
    is_behind_async(behind) || is_gen_modifier(behind)
}

/// Whether a modifier comes next that is a name elsewhere.
#[tactic(auto, unfolding(crate::specs::Heads::weak_modifier))]
fn is_weak_modifier(cursor: &Cursor<'_>) -> bool
    ensures { result ≡ sees spec.weak_modifier cursor.now }
{
    match cursor.word() {
        "async" => is_async_modifier(&cursor.second()),
        "gen" => is_behind_async(&cursor.second()),
        "auto" => cursor.second().word() == "trait",
        _ => false,
    }
}

#[tactic(auto, unfolding(crate::specs::Heads::may_follow_const))]
fn is_const_modifier(behind: &Cursor<'_>) -> bool
    ensures { result ≡ (spec.may_follow_const (word behind.now) || sees spec.weak_modifier behind.now) }
{
    is_among(behind.word(), &BEHIND_CONST) || is_weak_modifier(behind)
}

#[tactic(auto, unfolding(crate::specs::Heads::follows_unsafe))]
fn is_unsafe_modifier(behind: &Cursor<'_>) -> bool
    ensures { result ≡ (spec.follows_unsafe (word behind.now) || sees spec.weak_modifier behind.now) }
{
    is_among(behind.word(), &BEHIND_UNSAFE) || is_weak_modifier(behind)
}

#[tactic(auto, unfolding(crate::specs::Heads::follows_safe))]
fn follows_safe(word: &str) -> bool
    ensures { result ≡ spec.follows_safe word.now }
{
    is_among(word, &BEHIND_SAFE)
}

#[tactic(auto, unfolding(crate::specs::Heads::follows_default))]
fn follows_default(word: &str) -> bool
    ensures { result ≡ spec.follows_default word.now }
{
    is_among(word, &BEHIND_DEFAULT)
}

#[tactic(auto, unfolding(crate::specs::Heads::follows_extern_modifier))]
fn follows_extern(word: &str) -> bool
    ensures { result ≡ spec.follows_extern_modifier word.now }
{
    is_among(word, &BEHIND_EXTERN)
}

/// The lengths of the words that can be modifiers, by their first byte.
static MODIFIERS: [u16; 32] = [
    0, 48, 0, 32, 128, 64, 32, 8, 0, 0, 0, 0, 0, 0, 0, 0, 0, 0, 32, 16, 16, 64, 0, 0, 0, 0, 0, 0,
    0, 0, 0, 0,
];

/// Whether a word may be a modifier, by its length and its first byte.
#[inline(always)]
fn may_modify(word: &str) -> bool
    ensures { result ≡ inner.may_modify word.now }
{
    has_length(&MODIFIERS, first_byte(word), word)
}

/// Whether a modifier comes next, by its word. Only behind a word that can be one a token is cut.
#[inline(never)]
#[tactic(auto, unfolding(crate::specs::Heads::modifier, crate::specs::Heads::abi))]
fn is_modifier_word(cursor: &Cursor<'_>) -> bool
    ensures { result ≡ sees spec.modifier cursor.now }
{
    match cursor.word() {
        "const" => is_const_modifier(&cursor.second()),
        "unsafe" => is_unsafe_modifier(&cursor.second()),
        "safe" => follows_safe(cursor.second().word()),
        "default" | "final" => follows_default(cursor.second().word()),
        "extern" => follows_extern(word_behind_abi(&cursor.second())),
        "type" => cursor.second().word() == "const",
        "reuse" => cursor.second().word() == "impl",
        _ => is_weak_modifier(cursor),
    }
}

/// Whether a modifier comes next.
#[tactic(auto, using(crate::proofs::ModifierTests::no_modifier))]
pub(crate) fn is_modifier(cursor: &Cursor<'_>) -> bool
    ensures { result ≡ sees spec.modifier cursor.now }
{
    // Most words are told by their length and their first byte.
    if !may_modify(cursor.word()) {
        return false;
    }
    is_modifier_word(cursor)
}

/// Passes over the words that are modifiers where they stand, and the name of an interface behind `extern`.
#[tactic(auto, unfolding(crate::specs::Heads::modifiers), using(crate::proofs::Steps::modifier_turns))]
pub(crate) fn pass_modifiers(cursor: &mut Cursor<'_>)
    ensures { cursor.new ≡ (reads spec.modifiers cursor.old).1 }
{
    let most = Cursor::most_turns();
    for _turn in 0..most {
        if !is_modifier(cursor) {
            break;
        }
        cursor.bump();
        pass_abi(cursor);
    }
}
