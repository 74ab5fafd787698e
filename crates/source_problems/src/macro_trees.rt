//! The token trees of macro calls and attributes.

ghost use Rattle.std.specs.Prelude.{◌≡◌, ◌==◌, ◌+◌, ◌<◌, ◌≤◌, ◌^◌};
ghost use Rattle.source_problems.specs.MacroTrees as spec;

use rust_lexer::{Token, TokenKind};

/// What stands before a token.
#[derive(Clone, Copy)]
pub(crate) enum Before {
    /// A name that a macro may have.
    Name,
    /// Such a name and `!`, and perhaps another name.
    Mark,
    /// `#`, and perhaps `!`.
    Hash,
    Other,
}

/// Where a token stands: what is before it, and how many brackets are open around it of the token tree of a macro call
/// or an attribute, from the tree's own bracket on.
#[derive(Clone, Copy)]
pub(crate) struct Around {
    pub before: Before,
    pub depth: usize,
}

/// Whether a `!` behind this word stands before a value.
#[tactic(auto, unfolding(crate::specs::MacroTrees::is_negating))]
fn is_negating(word: &str) -> bool
    ensures { result ≡ spec.is_negating word.now }
{
    matches!(
        word,
        "break" | "const" | "if" | "in" | "match" | "mut" | "return" | "while" | "yield"
    )
}

fn behind_name(before: Before, name: &str) -> Before
    ensures { result ≡ spec.after_name before name.now }
{
    match before {
        Before::Mark => Before::Mark,
        Before::Name | Before::Hash | Before::Other => {
            if is_negating(name) {
                Before::Other
            } else {
                Before::Name
            }
        }
    }
}

fn behind_mark(before: Before) -> Before
    ensures { result ≡ spec.after_mark before }
{
    match before {
        Before::Name => Before::Mark,
        Before::Hash => Before::Hash,
        Before::Mark | Before::Other => Before::Other,
    }
}

fn behind_symbol(before: Before, symbol: u8) -> Before
    ensures { result ≡ spec.after_sign before symbol }
{
    match symbol {
        b'!' => behind_mark(before),
        b'#' => Before::Hash,
        _ => Before::Other,
    }
}

fn before_behind(before: Before, token: &Token<'_>) -> Before
    ensures { result ≡ spec.after_piece before token.now }
{
    match token.kind() {
        TokenKind::Ident | TokenKind::RawIdent => behind_name(before, token.text()),
        _ => behind_symbol(before, token.symbol()),
    }
}

fn opens_tree(before: Before) -> bool
    ensures { result ≡ spec.opens_tree before }
{
    matches!(before, Before::Mark | Before::Hash)
}

impl Around {
    /// At the beginning of a text.
    pub(crate) fn outside() -> Self
        ensures { result ≡ spec.outside }
    {
        Around {
            before: Before::Other,
            depth: 0,
        }
    }

    /// Whether no token tree of a macro call or an attribute is around.
    pub(crate) fn is_outside(self) -> bool
        ensures { result ≡ (self.depth == 0) }
    {
        self.depth == 0
    }

    fn depth_behind(self, token: &Token<'_>) -> usize
        requires { self.depth + 1 < 2 ^ 64 }
        ensures value { result ≡ spec.depth_after self.before self.depth token.now }
        ensures deeper { result ≤ self.depth + 1 }
    {
        match token.kind() {
            TokenKind::OpenDelim => {
                if self.depth > 0 || opens_tree(self.before) {
                    self.depth + 1
                } else {
                    self.depth
                }
            }
            TokenKind::CloseDelim => self.depth.saturating_sub(1),
            _ => self.depth,
        }
    }

    /// Where what stands behind a token is.
    pub(crate) fn behind(self, token: &Token<'_>) -> Self
        requires { self.depth + 1 < 2 ^ 64 }
        ensures value { result ≡ spec.around_after self token.now }
        ensures deeper { result.depth ≤ self.depth + 1 }
    {
        if !token.is_significant() {
            return self;
        }
        Around {
            before: before_behind(self.before, token),
            depth: self.depth_behind(token),
        }
    }
}
