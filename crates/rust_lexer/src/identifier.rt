//! Which words are identifiers.

ghost use Rattle.std.specs.Prelude.{◌≡◌, slice_get, chars};
ghost use Rattle.std.specs.List.{list_all};
ghost use Rattle.unicode_ident.specs.Ident as unicode;
ghost use Rattle.rust_lexer.specs.Identifier as spec;

use unicode_ident::{is_xid_continue, is_xid_start};

/// Whether a word is an identifier or a keyword by its characters. The reference's `IDENTIFIER_OR_KEYWORD`, and `_`.
pub fn is_identifier(word: &str) -> bool
    ensures { result ≡ spec.is_identifier word.now }
{
    starts(word) && continues(word)
}

/// Whether an identifier may begin with a character, if there is one.
fn is_start(first: Option<char>) -> bool
    ensures { result ≡ spec.may_start first }
{
    match first {
        Some(c) => is_xid_start(c) || c == '_',
        None => false,
    }
}

/// Whether an identifier may begin as a word does.
fn starts(word: &str) -> bool
    ensures { result ≡ spec.may_start (slice_get (chars word.now) 0) }
{
    is_start(word.chars().nth(0))
}

/// Whether each character of a word may stand in an identifier.
fn continues(word: &str) -> bool
    ensures { result ≡ list_all unicode.is_xid_continue (chars word.now) }
{
    word.chars().all(|c| is_xid_continue(c))
}
