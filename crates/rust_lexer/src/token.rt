//! A token of a text.

ghost use Rattle.std.specs.Prelude.{◌≡◌, ◌+◌, ◌<◌, ◌^◌, length, drop, slice_index};
ghost use Rattle.rust_lexer.specs.Symbol.{symbol_from, symbol_of};
ghost use Rattle.rust_lexer.specs.Terminated as spec;
ghost use Rattle.rust_lexer.specs.Tokens.{is_blank, is_significant};

use crate::comment::block;
use crate::kind::{LiteralKind, TokenKind};
use crate::quoted::{character, raw_string, string};
use std::alloc::AllocError;
use std::marker::Model;

/// A token: its kind, its text, and the byte place at which that begins. rustc's `Token`, which has the length of the
/// text alone.
#[derive(Debug, Drop)]
pub struct Token<'a> {
    kind: TokenKind,
    text: &'a str,
    at: usize,
    /// Its byte, if it is a bracket or punctuation, or 0: more is asked for that than for all else. (As long as a word
    /// of the machine: what would stand unused behind a byte takes longer to be moved.)
    symbol: usize,
}

impl<'a> Model for Token<'a> {
    ghost use Rattle.std.specs.Prelude.{◌≡◌, ◌+◌, ◌<◌, ◌^◌, length, slice_index};
    ghost use Rattle.rust_lexer.specs.Piece.{Piece, coded_piece};
    ghost use Rattle.rust_lexer.specs.Symbol.{symbol_from};

    ghost Value = { Piece };

    ghost coded = { coded_piece };

    ghost view = { λ t. record { kind = t.kind; text = t.text.now; at = t.at } };

    ghost invariant = { λ t. (t.at + length t.text.now < 2 ^ 64)
        × (t.symbol ≡ symbol_from t.kind (slice_index t.text.now 0)) × (t.symbol < 2 ^ 8) };
}

impl Clone for Token<'_> {
    ghost use Rattle.std.specs.Prelude.{◌≡◌, ⊤};

    ghost is_clone = { λ token copy. copy ≡ token };

    ghost is_infallible = { λ _. ⊤ };

    fn clone(&self) -> Result<Self, AllocError> {
        Ok(self.copy())
    }
}

/// The first byte of a text of this kind, if that is a bracket or punctuation, or 0.
#[inline(always)]
fn symbol_of(kind: TokenKind, text: &str) -> u8
    ensures { result ≡ symbol_from kind (slice_index text.now 0) }
{
    match kind {
        TokenKind::OpenDelim | TokenKind::CloseDelim | TokenKind::Punct => match text.as_bytes() {
            [first, ..] => *first,
            [] => 0,
        },
        _ => 0,
    }
}

impl<'a> Token<'a> {
    #[inline(always)]
    pub(crate) fn new(kind: TokenKind, text: &'a str, at: usize) -> Self
        requires { at + length text.now < 2 ^ 64 }
        ensures { result ≡ record { kind = kind; text = text.now; at = at } }
    {
        let symbol = symbol_of(kind, text);
        Token {
            kind,
            text,
            at,
            symbol: symbol as usize,
        }
    }

    /// The same token. (`Copy` is not to be had for a type that is seen by a model and borrows.)
    pub fn copy(&self) -> Self
        ensures { result ≡ self.now }
    {
        Token {
            kind: self.kind,
            text: self.text,
            at: self.at,
            symbol: self.symbol,
        }
    }

    pub fn kind(&self) -> TokenKind
        ensures { result ≡ self.now.kind }
    {
        self.kind
    }

    pub fn text(&self) -> &'a str
        ensures { result.now ≡ self.now.text }
    {
        self.text
    }

    /// The byte place at which the text begins.
    pub fn at(&self) -> usize
        ensures { result ≡ self.now.at }
    {
        self.at
    }

    /// The byte place behind the text.
    pub fn end(&self) -> usize
        ensures { result ≡ self.now.at + length self.now.text }
    {
        self.at + self.text.len()
    }

    /// The byte of a bracket or of punctuation, and 0 for every other token.
    pub fn symbol(&self) -> u8
        ensures { result ≡ symbol_of self.now }
    {
        self.symbol as u8
    }

    /// Whether it is neither white space nor a comment, but for one that documents something, nor a byte order mark, a
    /// line `#!..` or frontmatter in front.
    pub fn is_significant(&self) -> bool
        ensures { result ≡ is_significant self.now }
    {
        !matches!(
            self.kind,
            TokenKind::Whitespace
                | TokenKind::LineComment(None)
                | TokenKind::BlockComment(None)
                | TokenKind::ByteOrderMark
                | TokenKind::Shebang
                | TokenKind::Frontmatter
        )
    }

    /// Whether it is white space or a comment that documents nothing.
    pub(crate) fn is_blank(&self) -> bool
        ensures { result ≡ is_blank self.now.kind }
    {
        matches!(
            self.kind,
            TokenKind::Whitespace | TokenKind::LineComment(None) | TokenKind::BlockComment(None)
        )
    }

    /// Whether it is closed, if it is a block comment or a quoted literal. rustc's `terminated` of these.
    pub fn is_terminated(&self) -> bool
        ensures { result ≡ spec.is_terminated self.now }
    {
        match self.kind {
            TokenKind::BlockComment(_) => block(0, bytes_behind(self.text, 2)).is_closed,
            TokenKind::Literal(kind) => is_literal_closed(kind, self.text),
            _ => true,
        }
    }
}

/// The bytes of a text behind so many.
fn bytes_behind(text: &str, count: usize) -> &[u8]
    ensures { result.now ≡ drop count text.now }
{
    let bytes = text.as_bytes();
    if count <= bytes.len() {
        &bytes[count..]
    } else {
        &[]
    }
}

/// Whether a literal of this text is closed, if it is quoted.
fn is_literal_closed(kind: LiteralKind, text: &str) -> bool
    ensures { result ≡ spec.is_literal_closed kind text.now }
{
    match kind {
        LiteralKind::Int | LiteralKind::Float => true,
        LiteralKind::Char => character(0, bytes_behind(text, 1)).is_closed,
        LiteralKind::Byte => character(0, bytes_behind(text, 2)).is_closed,
        LiteralKind::Str => string(0, bytes_behind(text, 1)).is_closed,
        LiteralKind::ByteStr | LiteralKind::CStr => string(0, bytes_behind(text, 2)).is_closed,
        LiteralKind::RawStr => is_raw_closed(bytes_behind(text, 1)),
        LiteralKind::RawByteStr | LiteralKind::RawCStr => is_raw_closed(bytes_behind(text, 2)),
    }
}

/// Whether a raw string is closed, from its `#` on.
fn is_raw_closed(z: &[u8]) -> bool
    ensures { result ≡ spec.is_raw_closed z.now }
{
    match raw_string(0, z) {
        Some(extent) => extent.is_closed,
        None => false,
    }
}
