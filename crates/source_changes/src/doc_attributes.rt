//! Attributes that document, as `#[doc = ".."]`: their tokens count where documentation comments do.

ghost use Rattle.std.specs.Prelude.{◌≡◌, ◌∷◌, ◌+◌, ◌≤◌, ℕ, List, IsTrue, Some, None, false, if◌then◌else◌, length, map};
ghost use Rattle.source_changes.specs.DocAttributes as spec;
ghost use Rattle.source_changes.specs.Inner as inner;
ghost use Rattle.source_changes.specs.Skeletons.{kept_tokens};
ghost use Rattle.source_changes.specs.declared.kept.Hole.{Hole};

use rust_cursor::last_byte;
use rust_lexer::{Lexer, LiteralKind, Token, TokenKind};

/// What a token of such an attribute is, behind its `#`.
#[derive(Clone, Copy, Debug)]
enum Sign {
    Bang,
    Open,
    Name,
    Equals,
    Text,
    Close,
}

/// `[doc = ".."]`
const OUTER: [Sign; 5] = [
    Sign::Open,
    Sign::Name,
    Sign::Equals,
    Sign::Text,
    Sign::Close,
];

/// `![doc = ".."]`
const INNER: [Sign; 6] = [
    Sign::Bang,
    Sign::Open,
    Sign::Name,
    Sign::Equals,
    Sign::Text,
    Sign::Close,
];

fn is_doc_name(token: &Token<'_>) -> bool
    ensures { result ≡ spec.is_doc_name token.now }
{
    match token.kind() {
        TokenKind::Ident => token.text() == "doc",
        TokenKind::RawIdent => token.text() == "r#doc",
        _ => false,
    }
}

/// Whether it is a string without a suffix.
fn is_bare_string(token: &Token<'_>) -> bool
    ensures { result ≡ spec.is_bare_string token.now }
{
    match token.kind() {
        TokenKind::Literal(LiteralKind::Str | LiteralKind::RawStr) => {
            matches!(last_byte(token.text()), b'"' | b'#')
        }
        _ => false,
    }
}

impl Sign {
    fn is_of(self, token: &Token<'_>) -> bool
        ensures { result ≡ inner.sign_test self token.now }
    {
        match self {
            Sign::Bang => token.symbol() == b'!',
            Sign::Open => token.symbol() == b'[',
            Sign::Name => is_doc_name(token),
            Sign::Equals => token.symbol() == b'=',
            Sign::Text => is_bare_string(token),
            Sign::Close => token.symbol() == b']',
        }
    }
}

/// Passes over the next tokens but blanks as long as they are so in turn: whether they all are.
fn pass_all(signs: &[Sign], lexer: &mut Lexer<'_>) -> bool
    ensures { spec.behind_tests (map inner.sign_test signs.now) lexer.old
        ≡ (if result then Some lexer.new else None) }
{
    let mut left = signs;
    while let [sign, more @ ..] = left {
        let Some(token) = lexer.next() else {
            return false;
        };
        if token.is_significant() {
            if !sign.is_of(&token) {
                return false;
            }
            left = more;
        }
    }
    true
}

/// Passes over them if they all are.
fn pass_if_all(signs: &[Sign], lexer: &mut Lexer<'_>) -> bool
    ensures all { IsTrue result → spec.behind_tests (map inner.sign_test signs.now) lexer.old ≡ Some lexer.new }
    ensures none { result ≡ false → spec.behind_tests (map inner.sign_test signs.now) lexer.old ≡ None }
    ensures same { result ≡ false → lexer.new ≡ lexer.old }
{
    let mut ahead = lexer.copy();
    if !pass_all(signs, &mut ahead) {
        return false;
    }
    *lexer = ahead;
    true
}

/// Passes over an attribute behind this token, if the token is its `#` and it documents. Where documentation counts it
/// is not looked for.
pub(crate) fn pass_doc_attribute(token: &Token<'_>, has_docs: bool, lexer: &mut Lexer<'_>) -> bool
    requires { inner.ComeBehind (token.now.at + length token.now.text) lexer.old }
    ensures same { (holes : List Hole) (before : ℕ) →
        kept_tokens has_docs holes before (spec.docs_as_comments has_docs 0 (token.now ∷ lexer.old))
        ≡ (if result then kept_tokens has_docs holes 0 (spec.docs_as_comments has_docs 0 lexer.new)
        else kept_tokens has_docs holes before (token.now ∷ spec.docs_as_comments has_docs 0 lexer.new)) }
    ensures after { inner.ComeBehind (token.now.at + length token.now.text) lexer.new }
    ensures fewer { length lexer.new ≤ length lexer.old }
{
    if has_docs || token.symbol() != b'#' {
        return false;
    }
    pass_if_all(&OUTER, lexer) || pass_if_all(&INNER, lexer)
}

/// Whether no such attribute ends in what is left that began before it.
pub(crate) fn is_apart(lexer: &Lexer<'_>) -> bool
    ensures { result ≡ inner.are_apart spec.inner_doc_list lexer.now }
{
    let mut left: &[Sign] = &INNER;
    while let [_, more @ ..] = left {
        if pass_all(left, &mut lexer.copy()) {
            return false;
        }
        left = more;
    }
    true
}
