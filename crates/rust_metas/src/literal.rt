//! Literals, and documentation comments as literals.

ghost use Rattle.std.specs.Prelude.{◌≡◌, IfOk, option_map, string_bytes};
ghost use Rattle.rust_cursor.specs.Nests.{is_literal_kind};
ghost use Rattle.rust_cursor.specs.Anchored.{reads_from};
ghost use Rattle.rust_cursor.specs.Looks.{sees};
ghost use Rattle.rust_cursor.specs.Reader.{Gives};
ghost use Rattle.rust_cursor.specs.Words.{bumped};
ghost use Rattle.rust_metas.specs.Literals as spec;
ghost use Rattle.rust_metas.specs.Strings as strings;

use crate::string::{bytes_behind, quoted_text, raw_string_bytes, text_from, unescaped_bytes};
use hir_input::{EditionYear, Literal, Span, SyntaxContext};
use rust_cursor::Cursor;
use rust_lexer::{DocStyle, LiteralKind, TokenKind};
use std::alloc::{AllocError, Global};

/// Where all that is written in a text comes from.
pub(crate) fn root() -> SyntaxContext
    ensures { result ≡ spec.root }
{
    SyntaxContext::Root(EditionYear::E2024)
}

/// A place in a span: one that is too far is the last that it can tell.
fn place(at: usize) -> u32
    ensures { result ≡ spec.place at }
{
    at.min(4_294_967_295) as u32
}

/// A span that counts from the anchor.
fn span_from(anchor: usize, start: usize, end: usize) -> Span
    ensures { result ≡ spec.span_from anchor start end }
{
    Span {
        start: place(start.saturating_sub(anchor)),
        end: place(end.saturating_sub(anchor)),
        ctxt: root(),
    }
}

fn and_text(bytes: Option<Vec<u8>>) -> Option<String>
    ensures { option_map string_bytes result ≡ strings.and_text (option_map (λ v. v.items) bytes) }
{
    match bytes {
        Some(bytes) => text_from(bytes),
        None => None,
    }
}

/// The string of a literal, if it is a string or a raw string without a suffix.
fn string_of(alloc: Global, kind: LiteralKind, text: &str) -> Result<Option<String>, AllocError>
    ensures { IfOk result (λ s. option_map string_bytes s ≡ spec.string_of kind text.now) }
{
    match kind {
        LiteralKind::Str => {
            let bytes = unescaped_bytes(alloc, bytes_behind(text.as_bytes(), 1))?;
            Ok(and_text(bytes))
        }
        LiteralKind::RawStr => {
            let bytes = raw_string_bytes(alloc, bytes_behind(text.as_bytes(), 1))?;
            Ok(and_text(bytes))
        }
        _ => Ok(None),
    }
}

/// The string of a token, if it is a literal that has one.
pub(crate) fn string_by(
    alloc: Global,
    kind: Option<TokenKind>,
    text: &str,
) -> Result<Option<String>, AllocError>
    ensures { IfOk result (λ s. option_map string_bytes s ≡ spec.string_by kind text.now) }
{
    match kind {
        Some(TokenKind::Literal(kind)) => string_of(alloc, kind, text),
        _ => Ok(None),
    }
}

pub(crate) fn is_literal_kind(kind: Option<TokenKind>) -> bool
    ensures { result ≡ is_literal_kind kind }
{
    matches!(kind, Some(TokenKind::Literal(_)))
}

/// Whether `true` or `false` comes next.
#[tactic(auto, unfolding(crate::specs::Literals::is_truth))]
fn is_truth(cursor: &Cursor<'_>) -> bool
    ensures { result ≡ sees spec.is_truth cursor.now }
{
    matches!(cursor.word(), "true" | "false")
}

#[tactic(auto, unfolding(crate::specs::Literals::is_literal))]
pub(crate) fn is_literal(cursor: &Cursor<'_>) -> bool
    ensures { result ≡ sees spec.is_literal cursor.now }
{
    is_literal_kind(cursor.kind()) || is_truth(cursor)
}

/// Whether a comma comes next, a bracket that closes, or nothing.
#[tactic(auto, unfolding(crate::specs::Literals::is_ended))]
pub(crate) fn is_ended(cursor: &Cursor<'_>) -> bool
    ensures { result ≡ sees spec.is_ended cursor.now }
{
    cursor.is_at_end() || cursor.symbol() == b','
}

/// The literal that comes next, up to this place.
#[tactic(auto, unfolding(crate::specs::Literals::next_literal))]
fn next_literal(
    alloc: Global,
    cursor: &Cursor<'_>,
    anchor: usize,
    end: usize,
) -> Result<Literal, AllocError>
    requires { end ≡ (bumped cursor.now).past }
    ensures { IfOk result (λ l. l ≡ spec.next_literal anchor cursor.now) }
{
    let rendered = String::from_str(alloc, cursor.text())?;
    let string = string_by(alloc, cursor.kind(), cursor.text())?;
    Ok(Literal {
        rendered,
        string,
        span: span_from(anchor, cursor.at(), end),
    })
}

/// Takes a literal, if one comes next and nothing stands behind it.
#[tactic(auto, unfolding(crate::specs::Literals::value, crate::specs::Literals::next_literal))]
pub(crate) fn value(
    alloc: Global,
    cursor: &mut Cursor<'_>,
    anchor: usize,
) -> Result<Option<Literal>, AllocError>
    ensures { Gives (λ l. l) (reads_from anchor spec.value cursor.old) result cursor.new }
{
    if !is_literal(cursor) {
        return Ok(None);
    }
    let ahead = cursor.second();
    if !is_ended(&ahead) {
        return Ok(None);
    }
    let literal = next_literal(alloc, cursor, anchor, ahead.last_end())?;
    *cursor = ahead;
    Ok(Some(literal))
}

/// The style of a token, if it is a documentation comment.
pub(crate) fn style_by(kind: Option<TokenKind>) -> Option<DocStyle>
    ensures { result ≡ spec.style_by kind }
{
    match kind {
        Some(TokenKind::LineComment(style) | TokenKind::BlockComment(style)) => style,
        _ => None,
    }
}

/// A line without the carriage return at its end.
fn without_return(z: &[u8]) -> &[u8]
    ensures { result.now ≡ spec.without_return z.now }
{
    match z {
        [front @ .., b'\r'] => front,
        _ => z,
    }
}

/// A block without its `*/`.
fn without_end(z: &[u8]) -> &[u8]
    ensures { result.now ≡ spec.without_end z.now }
{
    match z {
        [front @ .., b'*', b'/'] => front,
        _ => z,
    }
}

/// The text of a comment behind its mark.
fn comment_text(kind: Option<TokenKind>, text: &str) -> &[u8]
    ensures { result.now ≡ spec.comment_text kind text.now }
{
    let z = bytes_behind(text.as_bytes(), 3);
    match kind {
        Some(TokenKind::LineComment(_)) => without_return(z),
        _ => without_end(z),
    }
}

fn literal_from(rendered: Option<String>, string: Option<String>, span: Span) -> Option<Literal>
    ensures { result ≡ spec.literal_from (option_map string_bytes rendered)
        (option_map string_bytes string) span }
{
    match (rendered, string) {
        (Some(rendered), Some(string)) => Some(Literal {
            rendered,
            string: Some(string),
            span,
        }),
        _ => None,
    }
}

/// A text as the literal of a string.
#[tactic(auto, unfolding(crate::specs::Literals::string_literal))]
fn string_literal(alloc: Global, z: &[u8], span: Span) -> Result<Option<Literal>, AllocError>
    ensures { IfOk result (λ l. l ≡ spec.string_literal z.now span) }
{
    let rendered = quoted_text(alloc, z)?;
    let string = Vec::from_slice(alloc, z)?;
    Ok(literal_from(text_from(rendered), text_from(string), span))
}

/// Takes a documentation comment, as the literal of what it says.
#[tactic(auto, unfolding(crate::specs::Literals::documentation))]
pub(crate) fn documentation(
    alloc: Global,
    cursor: &mut Cursor<'_>,
    anchor: usize,
) -> Result<Option<Literal>, AllocError>
    ensures { Gives (λ l. l) (spec.documentation anchor cursor.old) result cursor.new }
{
    let (kind, text, start) = (cursor.kind(), cursor.text(), cursor.at());
    cursor.bump();
    let span = span_from(anchor, start, cursor.last_end());
    string_literal(alloc, comment_text(kind, text), span)
}
