//! A cursor over the tokens of a text.

ghost use Rattle.std.specs.Prelude.{◌≡◌, ◌∷◌, ◌≤◌, ◌<◌, ◌^◌, IfSome, MatchOption, length, filter};
ghost use Rattle.rust_lexer.specs.Tokens.{is_significant};
ghost use Rattle.rust_cursor.specs.Tokens.{last_unended, left_of, place_if_open, tokens_of};
ghost use Rattle.rust_cursor.specs.Words as spec;

mod generics;
mod keywords;
mod nest;
mod passing;
mod taking;
mod texts;

use hir_input::EditionYear;
use rust_lexer::{Lexer, Token, TokenKind};
use std::marker::Model;
pub use texts::Excerpt;

/// The tokens of a text that are left, without white space and comments. Documentation comments are among them.
///
/// It holds one token and no memory.
#[derive(Drop)]
pub struct Cursor<'t> {
    past: usize,
    next: Option<Token<'t>>,
    lexer: Lexer<'t>,
    /// The place of the last token that the lexer gave, if it is not ended.
    last: Option<usize>,
    edition: EditionYear,
}

impl<'t> Model for Cursor<'t> {
    ghost use Rattle.std.specs.Prelude.{◌<◌, ◌^◌, length};
    ghost use Rattle.rust_cursor.specs.Tokens.{Tokens, coded_tokens, last_unended, left_of};

    ghost Value = { Tokens };

    ghost coded = { coded_tokens };

    ghost view = { λ c. record {
      past = c.past;
      left = left_of c.next c.lexer;
      unended = last_unended c.last c.lexer;
      edition = c.edition;
    } };

    ghost invariant = { λ c. length (left_of c.next c.lexer) < 2 ^ 64 };
}

/// The place of a token, if it is not ended.
fn place_if_open(token: &Token<'_>) -> Option<usize>
    ensures { result ≡ place_if_open token.now }
{
    if token.is_terminated() {
        None
    } else {
        Some(token.at())
    }
}

/// Puts down the place of a token that nothing is behind, if it is not ended: of all tokens only the last one tells.
#[inline(always)]
fn note_last(token: &Token<'_>, lexer: &Lexer<'_>, last: &mut Option<usize>)
    ensures { last_unended last.new lexer.now ≡ last_unended last.old (token.now ∷ lexer.now) }
{
    if lexer.is_empty() {
        *last = place_if_open(&token.copy());
    }
}

/// Passes over white space, if that comes next.
#[inline(always)]
#[tactic(auto, using(crate::proofs::WhiteSpace::white_found, crate::proofs::WhiteSpace::white_last))]
fn pass_white(lexer: &mut Lexer<'_>, last: &mut Option<usize>)
    ensures found { filter is_significant lexer.new ≡ filter is_significant lexer.old }
    ensures last { last_unended last.new lexer.new ≡ last_unended last.old lexer.old }
{
    if let Some(_white) = lexer.next_white() {
        *last = None;
    }
}

/// Puts down the next token that is neither white space nor a plain comment, in its place. The place of the last token
/// that was passed is put down too, if that is not ended.
#[inline(always)]
fn find_significant<'t>(
    lexer: &mut Lexer<'t>,
    last: &mut Option<usize>,
    next: &mut Option<Token<'t>>,
)
    ensures found { filter is_significant lexer.old ≡ left_of next.new lexer.new }
    ensures last { last_unended last.new lexer.new ≡ last_unended last.old lexer.old }
{
    'tokens: while let Some(token) = lexer.next() {
        // Of the tokens that are behind one another, only the last one tells. (Its copy keeps the token out of memory.)
        if lexer.is_empty() {
            *last = place_if_open(&token.copy());
        }
        if token.is_significant() {
            *next = Some(token);
            return;
        }
    }
    *next = None;
}

impl<'t> Cursor<'t> {
    /// The tokens of a text of an edition.
    #[tactic(auto, unfolding(crate::specs::Tokens::tokens_of), using(crate::proofs::TokenCounts::few))]
    pub fn new(text: &'t str, edition: EditionYear) -> Self
        ensures { result ≡ tokens_of edition text.now }
    {
        let mut lexer = Lexer::new(text);
        let mut last = None;
        let mut next = None;
        find_significant(&mut lexer, &mut last, &mut next);
        Cursor {
            past: 0,
            next,
            lexer,
            last,
            edition,
        }
    }

    /// Another cursor at the same place, to look ahead.
    pub fn look_ahead(&self) -> Self
        ensures { result ≡ self.now }
    {
        let next = match &self.next {
            Some(token) => Some(token.copy()),
            None => None,
        };
        Cursor {
            past: self.past,
            next,
            lexer: self.lexer.copy(),
            last: self.last,
            edition: self.edition,
        }
    }

    /// Another cursor behind the next token, to look ahead.
    pub fn second(&self) -> Self
        ensures { result ≡ spec.bumped self.now }
    {
        let mut second = self.look_ahead();
        second.bump();
        second
    }

    /// The edition of the text.
    pub fn edition(&self) -> EditionYear
        ensures { result ≡ self.now.edition }
    {
        self.edition
    }

    /// The byte place behind the last token that was taken, at first 0.
    pub fn last_end(&self) -> usize
        ensures { result ≡ self.now.past }
    {
        self.past
    }

    /// The bracket or the punctuation that comes next, or 0.
    #[tactic(auto, unfolding(crate::specs::Words::symbol))]
    pub fn symbol(&self) -> u8
        ensures { result ≡ spec.symbol self.now }
    {
        match &self.next {
            Some(token) => token.symbol(),
            None => 0,
        }
    }

    /// The keyword or the name that comes next, or an empty text. A raw identifier is none.
    #[tactic(auto, unfolding(crate::specs::Words::word))]
    pub fn word(&self) -> &'t str
        ensures { result.now ≡ spec.word self.now }
    {
        match &self.next {
            Some(token) => word_of(token),
            None => "",
        }
    }

    #[tactic(auto, unfolding(crate::specs::Words::kind))]
    pub fn kind(&self) -> Option<TokenKind>
        ensures { result ≡ spec.kind self.now }
    {
        match &self.next {
            Some(token) => Some(token.kind()),
            None => None,
        }
    }

    /// The text of the token that comes next, or an empty text.
    #[tactic(auto, unfolding(crate::specs::Words::text))]
    pub fn text(&self) -> &'t str
        ensures { result.now ≡ spec.text self.now }
    {
        match &self.next {
            Some(token) => token.text(),
            None => "",
        }
    }

    /// The byte place of the token that comes next, or [`Self::past`].
    #[tactic(auto, unfolding(crate::specs::Words::at))]
    pub fn at(&self) -> usize
        ensures { result ≡ spec.at self.now }
    {
        match &self.next {
            Some(token) => token.at(),
            None => self.past,
        }
    }

    /// Whether no token is left.
    #[tactic(auto, unfolding(crate::specs::Words::is_empty))]
    pub fn is_empty(&self) -> bool
        ensures { result ≡ spec.is_empty self.now }
    {
        self.next.is_none()
    }

    /// Whether a bracket that opens comes next.
    #[tactic(auto, unfolding(crate::specs::Words::is_at_open))]
    pub fn is_at_open(&self) -> bool
        ensures { result ≡ spec.is_at_open self.now }
    {
        match &self.next {
            Some(token) => is_open(token),
            None => false,
        }
    }

    /// Whether a bracket that closes comes next, or nothing.
    #[tactic(auto, unfolding(crate::specs::Words::is_at_end))]
    pub fn is_at_end(&self) -> bool
        ensures { result ≡ spec.is_at_end self.now }
    {
        match &self.next {
            Some(token) => is_close(token),
            None => true,
        }
    }

    /// Whether a name or a keyword comes next, raw or not.
    #[tactic(auto, unfolding(crate::specs::Words::is_at_identifier))]
    pub fn is_at_identifier(&self) -> bool
        ensures { result ≡ spec.is_at_identifier self.now }
    {
        match &self.next {
            Some(token) => identifies(token.kind()),
            None => false,
        }
    }

    /// Whether a documentation comment comes next.
    #[tactic(auto, unfolding(crate::specs::Words::is_at_doc))]
    pub fn is_at_doc(&self) -> bool
        ensures { result ≡ spec.is_at_doc self.now }
    {
        match &self.next {
            Some(token) => documents(token.kind()),
            None => false,
        }
    }

    /// The byte place of the text's last token, white space and comments among them, if that is not ended.
    ///
    /// It reads what is left of the text again, which is nothing where no token is left.
    pub fn unended_token(&self) -> Option<usize>
        ensures { result ≡ self.now.unended }
    {
        let mut last = self.last;
        let mut lexer = self.lexer.copy();
        'tokens: while let Some(token) = lexer.next() {
            if lexer.is_empty() {
                last = place_if_open(&token);
            }
        }
        last
    }

    /// Takes one token, if one is left.
    #[inline(never)]
    #[tactic(auto, unfolding(crate::specs::Words::bumped), using(crate::proofs::WhiteSpace::frequent_found, crate::proofs::WhiteSpace::frequent_last),)]
    pub fn bump(&mut self)
        ensures { self.new ≡ spec.bumped self.old }
    {
        if let Some(token) = &self.next {
            self.past = token.end();
            pass_white(&mut self.lexer, &mut self.last);
            if let Some(token) = self.lexer.next_frequent() {
                self.next = Some(token);
                return;
            }
            find_significant(&mut self.lexer, &mut self.last, &mut self.next);
        }
    }
}

fn word_of<'t>(token: &Token<'t>) -> &'t str
    ensures { result.now ≡ spec.word_by token.now.kind token.now.text }
{
    match token.kind() {
        TokenKind::Ident => token.text(),
        _ => "",
    }
}

fn is_open(token: &Token<'_>) -> bool
    ensures { result ≡ spec.is_open token.now }
{
    matches!(token.kind(), TokenKind::OpenDelim)
}

fn is_close(token: &Token<'_>) -> bool
    ensures { result ≡ spec.is_close token.now }
{
    matches!(token.kind(), TokenKind::CloseDelim)
}

fn identifies(kind: TokenKind) -> bool
    ensures { result ≡ spec.identifies kind }
{
    matches!(kind, TokenKind::Ident | TokenKind::RawIdent)
}

fn documents(kind: TokenKind) -> bool
    ensures { result ≡ spec.documents kind }
{
    matches!(kind, TokenKind::LineComment(_) | TokenKind::BlockComment(_))
}
