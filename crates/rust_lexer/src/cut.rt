//! The token at the front of a text, by its first byte and the bytes behind that.

ghost use Rattle.std.specs.Prelude.{◌≡◌, ◌≤◌, ◌∷◌, drop, length, IfSome, IsTrue, IsUtf8};
ghost use Rattle.rust_lexer.specs.declared.bytes.Class.TheVariants as class;
ghost use Rattle.rust_lexer.specs.Bytes as bytes;
ghost use Rattle.rust_lexer.specs.Cut as spec;
ghost use Rattle.rust_lexer.specs.Tokens.{is_significant_kind, whole_length};

use crate::bytes::{
    Class, byte, is_blank, is_close, is_letter, is_mark, is_open, is_start, is_white, is_word,
    is_word_start, run,
};
use crate::comment::{block, block_style, line_style};
use crate::kind::{LiteralKind, TokenKind};
use crate::number::number;
use crate::quoted::{Extent, character, is_one_char, raw_string, string};

/// A kind, and how many of the bytes behind the first belong to the token.
#[derive(Clone, Copy, Debug)]
pub(crate) struct Cut {
    pub kind: TokenKind,
    pub len: usize,
}

/// A literal of so many bytes, with its suffix.
fn with_suffix(kind: LiteralKind, len: usize, z: &[u8]) -> Cut
    requires { len ≤ length z.now }
    ensures value { result ≡ spec.with_suffix kind len z.now }
    ensures within { result.len ≤ length z.now }
{
    let behind = &z[len..];
    let suffix = if is_word_start(behind) {
        run(Class::Word, behind)
    } else {
        0
    };
    Cut {
        kind: TokenKind::Literal(kind),
        len: len + suffix,
    }
}

/// A quoted literal, which has a suffix where it is closed.
fn quoted_literal(kind: LiteralKind, extent: Extent, z: &[u8]) -> Cut
    requires { extent.len ≤ length z.now }
    ensures value { result ≡ spec.quoted_literal kind extent z.now }
    ensures within { result.len ≤ length z.now }
{
    if extent.is_closed {
        with_suffix(kind, extent.len, z)
    } else {
        Cut {
            kind: TokenKind::Literal(kind),
            len: extent.len,
        }
    }
}

/// An identifier or a keyword.
fn plain(z: &[u8]) -> Cut
    ensures value { result ≡ spec.plain_word z.now }
    ensures within { result.len ≤ length z.now }
{
    Cut {
        kind: TokenKind::Ident,
        len: run(Class::Word, z),
    }
}

/// What may be a raw identifier behind its `r`.
fn raw_identifier(z: &[u8]) -> Cut
    ensures value { result ≡ spec.raw_identifier z.now }
    ensures within { result.len ≤ length z.now }
{
    match z {
        [b'#', rest @ ..] if is_word_start(rest) => Cut {
            kind: TokenKind::RawIdent,
            len: 1 + run(Class::Word, rest),
        },
        _ => plain(z),
    }
}

/// What begins with `r`.
fn r_word(z: &[u8]) -> Cut
    ensures value { result ≡ spec.r_word z.now }
    ensures within { result.len ≤ length z.now }
{
    match raw_string(0, z) {
        Some(extent) => quoted_literal(LiteralKind::RawStr, extent, z),
        None => raw_identifier(z),
    }
}

/// Behind a `b` or a `c`, a raw literal, or else a word.
fn prefixed_raw(kind: LiteralKind, z: &[u8]) -> Cut
    ensures value { result ≡ spec.prefixed_raw kind z.now }
    ensures within { result.len ≤ length z.now }
{
    match z {
        [b'r', rest @ ..] => match raw_string(1, rest) {
            Some(extent) => quoted_literal(kind, extent, z),
            None => plain(z),
        },
        _ => plain(z),
    }
}

/// What begins with `b`.
fn b_word(z: &[u8]) -> Cut
    ensures value { result ≡ spec.b_word z.now }
    ensures within { result.len ≤ length z.now }
{
    match z {
        [b'"', rest @ ..] => quoted_literal(LiteralKind::ByteStr, string(1, rest), z),
        [b'\'', rest @ ..] => quoted_literal(LiteralKind::Byte, character(1, rest), z),
        _ => prefixed_raw(LiteralKind::RawByteStr, z),
    }
}

/// What begins with `c`.
fn c_word(z: &[u8]) -> Cut
    ensures value { result ≡ spec.c_word z.now }
    ensures within { result.len ≤ length z.now }
{
    match z {
        [b'"', rest @ ..] => quoted_literal(LiteralKind::CStr, string(1, rest), z),
        _ => prefixed_raw(LiteralKind::RawCStr, z),
    }
}

/// What begins as a word.
fn word(first: u8, z: &[u8]) -> Cut
    ensures value { result ≡ spec.cut_word first z.now }
    ensures within { result.len ≤ length z.now }
{
    match first {
        b'r' => r_word(z),
        b'b' => b_word(z),
        b'c' => c_word(z),
        _ => plain(z),
    }
}

/// A comment, or the `/` alone.
fn slash(z: &[u8]) -> Cut
    ensures value { result ≡ spec.slash z.now }
    ensures within { result.len ≤ length z.now }
{
    match z {
        [b'/', rest @ ..] => Cut {
            kind: TokenKind::LineComment(line_style(rest)),
            len: 1 + run(Class::Line, rest),
        },
        [b'*', rest @ ..] => Cut {
            kind: TokenKind::BlockComment(block_style(rest)),
            len: block(1, rest).len,
        },
        _ => Cut {
            kind: TokenKind::Punct,
            len: 0,
        },
    }
}

/// Whether a raw lifetime stands behind a `'`.
fn is_raw_lifetime(z: &[u8]) -> bool
    ensures value { result ≡ spec.is_raw_lifetime z.now }
    ensures within { IsTrue result → 2 ≤ length z.now }
{
    match z {
        [b'r', b'#', rest @ ..] => is_word_start(rest),
        _ => false,
    }
}

/// A lifetime, or a word between two `'`.
fn lifetime(z: &[u8]) -> Cut
    ensures value { result ≡ spec.lifetime z.now }
    ensures within { result.len ≤ length z.now }
{
    if is_raw_lifetime(z) {
        return Cut {
            kind: TokenKind::RawLifetime,
            len: 2 + run(Class::Word, &z[2..]),
        };
    }
    let len = run(Class::Word, z);
    if byte(z, len) == b'\'' {
        Cut {
            kind: TokenKind::Literal(LiteralKind::Char),
            len: len + 1,
        }
    } else {
        Cut {
            kind: TokenKind::Lifetime,
            len,
        }
    }
}

/// What begins with a `'`.
fn apostrophe(z: &[u8]) -> Cut
    ensures value { result ≡ spec.apostrophe z.now }
    ensures within { result.len ≤ length z.now }
{
    if is_word(z) && !is_one_char(z) {
        lifetime(z)
    } else {
        quoted_literal(LiteralKind::Char, character(0, z), z)
    }
}

/// The kind of a token of one byte.
#[inline]
fn symbol_kind(first: u8) -> TokenKind
    ensures { result ≡ spec.symbol_kind first }
{
    if is_open(first) {
        TokenKind::OpenDelim
    } else if is_close(first) {
        TokenKind::CloseDelim
    } else if is_mark(first) || first == b'/' {
        TokenKind::Punct
    } else {
        TokenKind::Unknown
    }
}

/// Cuts off the token that begins with this byte, before these.
#[inline(never)]
#[tactic(auto, unfolding(crate::specs::Cut::first_cut))]
pub(crate) fn any_cut(first: u8, z: &[u8]) -> Cut
    ensures value { result ≡ spec.first_cut first z.now }
    ensures within { result.len ≤ length z.now }
{
    // (Most of what is cut here is a comment.)
    if first == b'/' {
        slash(z)
    } else if is_white(first, z) {
        Cut {
            kind: TokenKind::Whitespace,
            len: run(Class::White, z),
        }
    } else if first.is_ascii_digit() {
        let number = number(first, z);
        with_suffix(number.kind, number.len, z)
    } else if is_start(first, z) {
        word(first, z)
    } else if first == b'"' {
        quoted_literal(LiteralKind::Str, string(0, z), z)
    } else if first == b'\'' {
        apostrophe(z)
    } else {
        Cut {
            kind: symbol_kind(first),
            len: 0,
        }
    }
}

/// The same of a mark, or of a word of ASCII letters that begins no literal. No byte behind them continues a character.
#[inline(always)]
pub(crate) fn mark_or_word(first: u8, z: &[u8]) -> Option<Cut>
    requires { IsUtf8 (first ∷ z.now) }
    ensures value { IfSome result (λ c. c ≡ spec.first_cut first z.now) }
    ensures within { IfSome result (λ c. c.len ≤ length z.now) }
    ensures whole { IfSome result (λ c. bytes.run_length class.Continuation (drop c.len z.now) ≡ 0) }
    ensures significant { IfSome result (λ c. IsTrue (is_significant_kind c.kind)) }
{
    if is_mark(first) {
        return Some(Cut {
            kind: symbol_kind(first),
            len: 0,
        });
    }
    if is_letter(first) {
        return Some(plain(z));
    }
    None
}

/// The same of the most frequent tokens, by their first bytes.
#[inline(always)]
pub(crate) fn frequent_cut(first: u8, z: &[u8]) -> Option<Cut>
    requires { IsUtf8 (first ∷ z.now) }
    ensures value { IfSome result (λ c. c ≡ spec.first_cut first z.now) }
    ensures within { IfSome result (λ c. c.len ≤ length z.now) }
    ensures whole { IfSome result (λ c. bytes.run_length class.Continuation (drop c.len z.now) ≡ 0) }
{
    if is_blank(first) {
        return Some(Cut {
            kind: TokenKind::Whitespace,
            len: run(Class::White, z),
        });
    }
    mark_or_word(first, z)
}

/// How many bytes belong to the token that begins with this byte, before these: of these alone.
#[inline(always)]
pub(crate) fn token_len(first: u8, z: &[u8]) -> usize
    ensures value { result ≡ whole_length (spec.first_cut first z.now) z.now }
    ensures within { result ≤ length z.now }
{
    if is_mark(first) {
        return run(Class::Continuation, z);
    }
    if is_blank(first) {
        return run(Class::White, z);
    }
    if is_letter(first) {
        return run(Class::Word, z);
    }
    let len = any_cut(first, z).len;
    len + run(Class::Continuation, &z[len..])
}
