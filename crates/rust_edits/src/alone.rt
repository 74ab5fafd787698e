//! Whether a text may stand between the braces of a body, whatever stands around them.

ghost use Rattle.std.specs.Prelude.{◌≡◌, ◌++◌, IfOk, IfSome, is_some, string_bytes};
ghost use Rattle.rust_lexer.specs.declared.kind.DocStyle.TheVariants.{Inner};
ghost use Rattle.rust_lexer.specs.Tokens.{tokens};
ghost use Rattle.rust_metas.specs.Attributes.{is_style};
ghost use Rattle.rust_metas.specs.Literals.{style_by};
ghost use Rattle.rust_items.specs.LineEnds.{with_feeds};
ghost use Rattle.rust_edits.specs.Inner as spec;

use hir_input::EditionYear;
use rust_cursor::Cursor;
use rust_items::line_ends::{has_return, with_feeds};
use rust_lexer::{DocStyle, Lexer, TokenKind};
use std::alloc::{AllocError, Global};

/// Of the brackets `(` and `[` in a text, how many close nothing, and how many stay open.
#[derive(Clone, Copy)]
pub(crate) struct Brackets {
    pub(crate) closing: usize,
    pub(crate) opening: usize,
}

impl Brackets {
    pub(crate) fn is_same(self, other: Brackets) -> bool
        ensures { result ≡ spec.same_loose (spec.brackets_view self) (spec.brackets_view other) }
    {
        self.closing == other.closing && self.opening == other.opening
    }
}

/// The brackets that are loose in a text, if the braces that it begins with are closed by its last token, and no
/// sooner.
#[tactic(auto, using(crate::proofs::StandingAlone::none_behind))]
fn loose_if_closed(text: &str) -> Option<Brackets>
    ensures closed { is_some result ≡ spec.closes_last 0 (tokens text.now) }
    ensures loose { IfSome result
        (λ loose. spec.brackets_view loose ≡ spec.loose_inside text.now) }
{
    let mut depth = 0usize;
    let mut loose = Brackets {
        closing: 0,
        opening: 0,
    };
    let mut lexer = Lexer::new(text);
    'tokens: while let Some(token) = lexer.next() {
        match token.symbol() {
            b'{' => depth += 1,
            b'}' if depth > 1 => depth -= 1,
            b'}' if lexer.is_empty() => return Some(loose),
            b'}' => return None,
            b'(' | b'[' => loose.opening += 1,
            b')' | b']' if loose.opening == 0 => loose.closing += 1,
            b')' | b']' => loose.opening -= 1,
            _ => (),
        }
    }
    None
}

/// Whether a token is inner documentation.
fn is_inner_doc(kind: Option<TokenKind>) -> bool
    ensures { result ≡ is_style Inner (style_by kind) }
{
    match kind {
        Some(TokenKind::LineComment(Some(DocStyle::Inner))) => true,
        Some(TokenKind::BlockComment(Some(DocStyle::Inner))) => true,
        _ => false,
    }
}

/// Whether no inner attribute stands behind the first token of a text.
#[tactic(auto, unfolding(rust_cursor::specs::Tokens::tokens_of, rust_cursor::specs::Words::bumped, rust_cursor::specs::Words::kind, rust_cursor::specs::Words::symbol,),)]
fn begins_plain(text: &str) -> bool
    ensures { result ≡ spec.begins_plain (tokens text.now) }
{
    // Which edition it is matters to names alone.
    let mut cursor = Cursor::new(text, EditionYear::E2024);
    cursor.bump();
    if is_inner_doc(cursor.kind()) {
        return false;
    }
    if cursor.symbol() != b'#' {
        return true;
    }
    cursor.bump();
    if cursor.symbol() != b'!' {
        return true;
    }
    cursor.bump();
    cursor.symbol() != b'['
}

/// The brackets that are loose in a text, if no inner attribute stands in the braces that it begins with, and it ends
/// with these.
fn loose_if_plain(text: &str) -> Option<Brackets>
    ensures test { is_some result ≡ spec.is_alone text.now }
    ensures loose { IfSome result
        (λ loose. spec.brackets_view loose ≡ spec.loose_inside text.now) }
{
    if begins_plain(text) {
        return loose_if_closed(text);
    }
    None
}

/// Three texts one behind the other, in braces.
fn in_braces(alloc: Global, front: &str, typed: &str, back: &str) -> Result<String, AllocError>
    ensures { IfOk result (λ text. string_bytes text
        ≡ spec.in_braces (front.now ++ (typed.now ++ back.now))) }
{
    let mut text = String::new(alloc);
    text.push_str("{")?;
    text.push_str(front)?;
    text.push_str(typed)?;
    text.push_str(back)?;
    text.push_str("}")?;
    Ok(text)
}

/// The brackets that are loose in three texts, one behind the other, if these may stand between the braces of a body.
pub(crate) fn loose_if_alone(
    alloc: Global,
    front: &str,
    typed: &str,
    back: &str,
) -> Result<Option<Brackets>, AllocError>
    ensures test { IfOk result (λ found. is_some found
        ≡ spec.is_alone (with_feeds (spec.in_braces (front.now ++ (typed.now ++ back.now))))) }
    ensures loose { IfOk result (λ found. IfSome found (λ loose. spec.brackets_view loose
        ≡ spec.loose_inside (with_feeds (spec.in_braces (front.now ++ (typed.now ++ back.now)))))) }
{
    let text = in_braces(alloc, front, typed, back)?;
    if !has_return(&text) {
        return Ok(loose_if_plain(&text));
    }
    let (feeds, _ends) = with_feeds(alloc, &text)?;
    Ok(loose_if_plain(&feeds))
}
