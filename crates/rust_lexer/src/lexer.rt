//! The tokens of a text.

ghost use Rattle.std.specs.Prelude.{◌≡◌, ◌<◌, false, ◌≤◌, ◌+◌, ◌^◌, All, IsTrue, IfOk, Some, IfSome, IfNone};
ghost use Rattle.std.specs.Prelude.{MatchOption, [], ◌∷◌, drop, length, IsUtf8};
ghost use Rattle.rust_lexer.specs.Tokens.{AreInPlace, text_of};
ghost use Rattle.rust_lexer.specs.Tokens as spec;
ghost use Rattle.rust_lexer.specs.declared.kind.TokenKind.TheVariants as kinds;
ghost use Rattle.rust_lexer.specs.Inner as inner;
ghost use Rattle.rust_lexer.specs.Bytes as bytes;
ghost use Rattle.rust_lexer.specs.Depths as depths;
ghost use Rattle.rust_lexer.specs.declared.bytes.Class.TheVariants as class;

use crate::bytes::{Class, byte, is_blank, run};
use crate::cut::{Cut, any_cut, frequent_cut, mark_or_word};
use crate::depth::{Depth, to_outer};
use crate::frontmatter::frontmatter;
use crate::kind::TokenKind;
use crate::prefix::common_prefix;
use crate::token::Token;
use std::alloc::{AllocError, Global};
use std::marker::Model;

/// What may stand in front of the text that is left.
#[derive(Clone, Copy, Debug)]
pub(crate) enum Front {
    /// A byte order mark.
    Mark,
    /// A line `#!..`, or frontmatter.
    Line,
    /// Frontmatter.
    Matter,
    /// A token alone.
    Token,
}

/// The tokens of a text that are left, one behind the other. It takes no memory.
///
/// rustc's `tokenize`, with the byte order mark, the line `#!..` and frontmatter in front as tokens.
#[derive(Debug, Drop)]
pub struct Lexer<'a> {
    rest: &'a str,
    at: usize,
    front: Front,
}

impl<'a> Model for Lexer<'a> {
    ghost use Rattle.std.specs.Prelude.{List, ◌+◌, ◌<◌, ◌^◌, length};
    ghost use Rattle.std.specs.Coded.{coded_list};
    ghost use Rattle.std.specs.Str.{IsUtf8};
    ghost use Rattle.rust_lexer.specs.Piece.{Piece, coded_piece};

    ghost Value = { List Piece };

    ghost coded = { coded_list coded_piece };

    ghost use Rattle.rust_lexer.specs.Tokens.{pieces};

    ghost view = { λ l. pieces l.front l.at l.rest.now };

    ghost invariant = { λ l. IsUtf8 l.rest.now × (l.at + length l.rest.now < 2 ^ 64) };
}

impl Clone for Lexer<'_> {
    ghost use Rattle.std.specs.Prelude.{◌≡◌, ⊤};

    ghost is_clone = { λ lexer copy. copy ≡ lexer };

    ghost is_infallible = { λ _. ⊤ };

    fn clone(&self) -> Result<Self, AllocError> {
        Ok(self.copy())
    }
}

impl<'a> Lexer<'a> {
    /// The tokens of a text.
    pub fn new(text: &'a str) -> Self
        ensures value { result ≡ spec.tokens text.now }
        ensures lossless { text_of result ≡ text.now }
        ensures in_place { AreInPlace 0 result }
        ensures not_empty { All (λ t. 0 < length t.text) result }
        ensures few { length result ≤ length text.now }
    {
        Lexer {
            rest: text,
            at: 0,
            front: front_of(text),
        }
    }

    /// The same tokens, to look ahead. (`Copy` is not to be had for a type that is seen by a model and borrows.)
    pub fn copy(&self) -> Self
        ensures { result ≡ self.now }
    {
        Lexer {
            rest: self.rest,
            at: self.at,
            front: self.front,
        }
    }

    /// A short path for white space: what it takes is the next token, and white space. Where it takes nothing, the
    /// lexer stays as it was and any token may come next.
    #[inline(always)]
    pub fn next_white(&mut self) -> Option<Token<'a>>
        ensures { MatchOption result (self.new ≡ self.old)
            (λ t. (t.kind ≡ kinds.Whitespace) × (self.old ≡ t ∷ self.new)) }
    {
        let Front::Token = self.front else {
            return None;
        };
        let (token, rest) = first_white(self.at, self.rest)?;
        self.at += token.text().len();
        self.rest = rest;
        Some(token)
    }

    /// A short path for a mark or a word of ASCII letters that begins no literal: what it takes is the next token, and
    /// more tokens are left. Where it takes nothing, the lexer stays as it was and any token may come next.
    #[inline(always)]
    pub fn next_frequent(&mut self) -> Option<Token<'a>>
        ensures { MatchOption result (self.new ≡ self.old)
            (λ t. IsTrue (spec.is_significant t) × (spec.is_nil self.new ≡ false) × (self.old ≡ t ∷ self.new)) }
    {
        let Front::Token = self.front else {
            return None;
        };
        let (token, rest) = frequent_token(self.at, self.rest)?;
        self.at += token.text().len();
        self.rest = rest;
        Some(token)
    }

    /// A short path over what stands in so many braces: it gives in which brackets the `}` stands that closes the last
    /// of these, and that comes next. Where it finds none, the lexer stays as it was.
    pub fn pass_braces(&mut self, depth: Depth) -> Option<Depth>
        ensures { MatchOption result (self.new ≡ self.old)
            (λ d. depths.to_outer depth self.old ≡ Some (d, self.new)) }
    {
        let Front::Token = self.front else {
            return None;
        };
        let (depth, at, rest) = to_outer(self.at, self.rest, depth)?;
        self.at = at;
        self.rest = rest;
        Some(depth)
    }

    /// A short path over tokens with which two texts go on alike: both lexers pass the same, none of which begins at
    /// this place or behind it. Where the texts differ soon, or the lexers stand at two places, they pass none.
    pub fn pass_same(&mut self, other: &mut Lexer<'_>, place: usize)
        ensures { spec.ArePassed place self.old self.new other.old other.new }
    {
        let (Front::Token, Front::Token) = (self.front, other.front) else {
            return;
        };
        if self.at != other.at {
            return;
        }
        let most = place.saturating_sub(self.at);
        let len = common_prefix(self.rest.as_bytes(), other.rest.as_bytes(), most);
        if len == 0 {
            return;
        }
        self.at += len;
        self.rest = self.rest.split_at(len).1;
        other.at += len;
        other.rest = other.rest.split_at(len).1;
    }

    /// Whether no token is left.
    pub fn is_empty(&self) -> bool
        ensures { result ≡ spec.is_nil self.now }
    {
        self.rest.is_empty()
    }
}

impl<'a> Iterator for Lexer<'a> {
    type Item = Token<'a>;

    ghost use Rattle.std.specs.Iterator.{YieldsFirst, item_count};

    ghost next_gives = { YieldsFirst (λ s. s) };

    ghost remaining = { item_count (λ s. s) };

    #[inline(always)]
    fn next(&mut self) -> Option<Token<'a>> {
        if let Front::Token = self.front {
            return take(&mut self.at, &mut self.rest);
        }
        let (token, left) = step(self.front, self.at, self.rest)?;
        *self = left;
        Some(token)
    }
}

/// Whether what may stand in front of a text alone can begin with a byte.
fn begins_front(first: u8) -> bool
    ensures { result ≡ inner.begins_front first }
{
    matches!(first, 0xEF | b'#' | b'-' | b'\n' | b'\r')
}

/// What may stand in front of a text.
#[tactic(auto, using(crate::proofs::WholeTexts::bare_is), unfolding(crate::specs::Tokens::tokens))]
fn front_of(text: &str) -> Front
    ensures { spec.pieces result 0 text.now ≡ spec.tokens text.now }
{
    match text.as_bytes() {
        [first, ..] if !begins_front(*first) => Front::Token,
        _ => Front::Mark,
    }
}

/// Splits off the token that is cut so, with the bytes that continue its last character.
#[inline(always)]
fn split(cut: Cut, at: usize, text: &str) -> (Token<'_>, &str)
    requires within { cut.len < length text.now }
    requires fits { at + length text.now < 2 ^ 64 }
    ensures value { inner.split_of cut at text.now ≡ Some (result.0, result.1.now) }
    ensures utf8 { IsUtf8 result.1.now }
    ensures takes { length result.0.text + length result.1.now ≡ length text.now }
{
    let behind = &text.as_bytes()[cut.len + 1..];
    let (text, rest) = text.split_at(cut.len + 1 + run(Class::Continuation, behind));
    (Token::new(cut.kind, text, at), rest)
}

/// The same, where no byte behind it continues a character.
#[inline(always)]
fn split_whole(cut: Cut, at: usize, text: &str) -> (Token<'_>, &str)
    requires within { cut.len < length text.now }
    requires whole { bytes.run_length class.Continuation (drop (cut.len + 1) text.now) ≡ 0 }
    requires fits { at + length text.now < 2 ^ 64 }
    ensures value { inner.split_of cut at text.now ≡ Some (result.0, result.1.now) }
    ensures utf8 { IsUtf8 result.1.now }
    ensures takes { length result.0.text + length result.1.now ≡ length text.now }
{
    let (text, rest) = text.split_at(cut.len + 1);
    (Token::new(cut.kind, text, at), rest)
}

/// The first token of a text that begins at this place, and the text behind it.
#[inline(always)]
fn first_token(at: usize, text: &str) -> Option<(Token<'_>, &str)>
    requires { at + length text.now < 2 ^ 64 }
    ensures value { MatchOption result (spec.tokens_from 0 at text.now ≡ [])
        (λ p. spec.tokens_from 0 at text.now ≡ p.0 ∷ spec.tokens_from 0 (at + length p.0.text) p.1.now) }
    ensures utf8 { IfSome result (λ p. IsUtf8 p.1.now) }
    ensures takes { IfSome result
        (λ p. (0 < length p.0.text) × (length p.0.text + length p.1.now ≡ length text.now)) }
{
    match text.as_bytes() {
        [b, behind @ ..] => match frequent_cut(*b, behind) {
            Some(cut) => Some(split_whole(cut, at, text)),
            None => Some(split(any_cut(*b, behind), at, text)),
        },
        [] => None,
    }
}

/// The white space in front of a text, if it begins with a byte of it, and the text behind it.
#[inline(always)]
fn first_white(at: usize, text: &str) -> Option<(Token<'_>, &str)>
    requires { at + length text.now < 2 ^ 64 }
    ensures value { IfSome result
        (λ p. spec.tokens_from 0 at text.now ≡ p.0
        ∷ spec.tokens_from 0 (at + length p.0.text) p.1.now) }
    ensures kind { IfSome result (λ p. p.0.kind ≡ kinds.Whitespace) }
    ensures utf8 { IfSome result (λ p. IsUtf8 p.1.now) }
    ensures takes { IfSome result (λ p. length p.0.text + length p.1.now ≡ length text.now) }
{
    match text.as_bytes() {
        [b, behind @ ..] if is_blank(*b) => {
            let cut = Cut {
                kind: TokenKind::Whitespace,
                len: run(Class::White, behind),
            };
            Some(split_whole(cut, at, text))
        }
        _ => None,
    }
}

/// The mark or the word in front of a text, and the text behind it, if that is not empty.
#[inline(always)]
fn frequent_token(at: usize, text: &str) -> Option<(Token<'_>, &str)>
    requires { at + length text.now < 2 ^ 64 }
    ensures value { IfSome result
        (λ p. spec.tokens_from 0 at text.now ≡ p.0
        ∷ spec.tokens_from 0 (at + length p.0.text) p.1.now) }
    ensures significant { IfSome result (λ p. IsTrue (spec.is_significant p.0)) }
    ensures more { IfSome result (λ p. 0 < length p.1.now) }
    ensures utf8 { IfSome result (λ p. IsUtf8 p.1.now) }
    ensures takes { IfSome result (λ p. length p.0.text + length p.1.now ≡ length text.now) }
{
    match text.as_bytes() {
        [b, behind @ ..] => {
            let cut = mark_or_word(*b, behind)?;
            let (token, rest) = split_whole(cut, at, text);
            if rest.is_empty() {
                return None;
            }
            Some((token, rest))
        }
        [] => None,
    }
}

/// Takes the first token of a text that begins at this place.
#[inline(always)]
fn take<'a>(at: &mut usize, text: &mut &'a str) -> Option<Token<'a>>
    requires utf8 { IsUtf8 text.old.now }
    requires fits { at.old + length text.old.now < 2 ^ 64 }
    ensures value { MatchOption result (spec.tokens_from 0 at.old text.old.now ≡ [])
        (λ t. spec.tokens_from 0 at.old text.old.now ≡ t ∷ spec.tokens_from 0 at.new text.new.now) }
    ensures utf8 { IsUtf8 text.new.now }
    ensures fits { at.new + length text.new.now < 2 ^ 64 }
    ensures nothing { IfNone result ((at.new ≡ at.old) × (text.new.now ≡ text.old.now)) }
{
    let (token, rest) = first_token(*at, text)?;
    *at += token.text().len();
    *text = rest;
    Some(token)
}

/// Whether a `[` is the first token of a text that is neither white space nor a comment.
fn is_bracket_next(at: usize, text: &str) -> bool
    requires { at + length text.now < 2 ^ 64 }
    ensures { result ≡ spec.is_bracket_next (spec.tokens_from 0 at text.now) }
{
    let mut at = at;
    let mut rest = text;
    while let Some((token, behind)) = first_token(at, rest) {
        if !token.is_blank() {
            return token.symbol() == b'[';
        }
        at += token.text().len();
        rest = behind;
    }
    false
}

/// Whether a line `#!..` stands in front of a text, and no inner attribute.
fn is_shebang(at: usize, text: &str) -> bool
    requires { at + length text.now < 2 ^ 64 }
    ensures { result ≡ spec.is_shebang (spec.tokens_from 0 at text.now) }
{
    let Some((hash, rest)) = first_token(at, text) else {
        return false;
    };
    if hash.symbol() != b'#' {
        return false;
    }
    is_shebang_next(at + hash.text().len(), rest)
}

/// The same behind its `#`.
fn is_shebang_next(at: usize, text: &str) -> bool
    requires { at + length text.now < 2 ^ 64 }
    ensures { result ≡ spec.is_shebang_next (spec.tokens_from 0 at text.now) }
{
    let Some((bang, rest)) = first_token(at, text) else {
        return false;
    };
    bang.symbol() == b'!' && !is_bracket_next(at + bang.text().len(), rest)
}

/// The line `#!..` in front of a text, and the text behind it.
fn shebang(at: usize, text: &str) -> Option<(Token<'_>, &str)>
    requires { at + length text.now < 2 ^ 64 }
    ensures value { MatchOption result (spec.shebang_from at text.now ≡ [])
        (λ p. spec.shebang_from at text.now ≡ p.0 ∷ spec.matter_from (at + length p.0.text) p.1.now) }
    ensures utf8 { IfSome result (λ p. IsUtf8 p.1.now) }
    ensures takes { IfSome result (λ p. length p.0.text + length p.1.now ≡ length text.now) }
{
    match text.as_bytes() {
        [_, behind @ ..] => {
            let cut = Cut {
                kind: TokenKind::Shebang,
                len: run(Class::Line, behind),
            };
            Some(split(cut, at, text))
        }
        [] => None,
    }
}

/// The frontmatter of so many bytes in front of a text, and the text behind it.
fn matter(len: usize, at: usize, text: &str) -> (Token<'_>, &str)
    requires some { 0 < len }
    requires within { len ≤ length text.now }
    requires fits { at + length text.now < 2 ^ 64 }
    ensures value { spec.matter_by (Some len) at text.now ≡ result.0
        ∷ spec.tokens_from 0 (at + length result.0.text) result.1.now }
    ensures utf8 { IsUtf8 result.1.now }
    ensures takes { length result.0.text + length result.1.now ≡ length text.now }
{
    let cut = Cut {
        kind: TokenKind::Frontmatter,
        len: len - 1,
    };
    split(cut, at, text)
}

/// Whether a byte order mark stands in front.
fn has_mark(text: &str) -> bool
    ensures value { result ≡ spec.has_mark text.now }
{
    let bytes = text.as_bytes();
    byte(bytes, 0) == 0xEF && byte(bytes, 1) == 0xBB && byte(bytes, 2) == 0xBF
}

/// The byte order mark in front of a text, and the text behind it.
fn mark(at: usize, text: &str) -> (Token<'_>, &str)
    requires mark { IsTrue (spec.has_mark text.now) }
    requires fits { at + length text.now < 2 ^ 64 }
    ensures value { spec.mark_from at text.now ≡ result.0
        ∷ spec.lines_from (at + length result.0.text) result.1.now }
    ensures utf8 { IsUtf8 result.1.now }
    ensures takes { length result.0.text + length result.1.now ≡ length text.now }
{
    let cut = Cut {
        kind: TokenKind::ByteOrderMark,
        len: 2,
    };
    split(cut, at, text)
}

/// The first token, where nothing else may stand in front, and those behind it.
fn step_token(at: usize, text: &str) -> Option<(Token<'_>, Lexer<'_>)>
    requires { at + length text.now < 2 ^ 64 }
    ensures { MatchOption result (spec.tokens_from 0 at text.now ≡ [])
        (λ p. spec.tokens_from 0 at text.now ≡ p.0 ∷ p.1) }
{
    let (token, rest) = first_token(at, text)?;
    let at = at + token.text().len();
    let front = Front::Token;
    Some((token, Lexer { rest, at, front }))
}

/// The same where frontmatter may stand in front.
fn step_matter(at: usize, text: &str) -> Option<(Token<'_>, Lexer<'_>)>
    requires { at + length text.now < 2 ^ 64 }
    ensures { MatchOption result (spec.matter_from at text.now ≡ [])
        (λ p. spec.matter_from at text.now ≡ p.0 ∷ p.1) }
{
    let Some(len) = frontmatter(text.as_bytes()) else {
        return step_token(at, text);
    };
    let (token, rest) = matter(len, at, text);
    let at = at + token.text().len();
    let front = Front::Token;
    Some((token, Lexer { rest, at, front }))
}

/// The same where a line `#!..` may stand in front.
fn step_line(at: usize, text: &str) -> Option<(Token<'_>, Lexer<'_>)>
    requires { at + length text.now < 2 ^ 64 }
    ensures { MatchOption result (spec.lines_from at text.now ≡ [])
        (λ p. spec.lines_from at text.now ≡ p.0 ∷ p.1) }
{
    if !is_shebang(at, text) {
        return step_matter(at, text);
    }
    let (token, rest) = shebang(at, text)?;
    let at = at + token.text().len();
    let front = Front::Matter;
    Some((token, Lexer { rest, at, front }))
}

/// The same where a byte order mark may stand in front.
fn step_mark(at: usize, text: &str) -> Option<(Token<'_>, Lexer<'_>)>
    requires { at + length text.now < 2 ^ 64 }
    ensures { MatchOption result (spec.pieces Front.Mark at text.now ≡ [])
        (λ p. spec.pieces Front.Mark at text.now ≡ p.0 ∷ p.1) }
{
    if !has_mark(text) {
        return step_line(at, text);
    }
    let (token, rest) = mark(at, text);
    let at = at + token.text().len();
    let front = Front::Line;
    Some((token, Lexer { rest, at, front }))
}

/// The first token of a text that begins at this place, and those behind it.
#[cold]
#[inline(never)]
fn step(front: Front, at: usize, text: &str) -> Option<(Token<'_>, Lexer<'_>)>
    requires { at + length text.now < 2 ^ 64 }
    ensures { MatchOption result (spec.pieces front at text.now ≡ [])
        (λ p. spec.pieces front at text.now ≡ p.0 ∷ p.1) }
{
    match front {
        Front::Token => step_token(at, text),
        Front::Matter => step_matter(at, text),
        Front::Line => step_line(at, text),
        Front::Mark => step_mark(at, text),
    }
}

/// All the tokens of a text, in one vector.
pub fn tokenize(alloc: Global, text: &str) -> Result<Vec<Token<'_>>, AllocError>
    ensures value { IfOk result (λ v. v.items ≡ spec.tokens text.now) }
    ensures lossless { IfOk result (λ v. text_of v.items ≡ text.now) }
    ensures in_place { IfOk result (λ v. AreInPlace 0 v.items) }
    ensures not_empty { IfOk result (λ v. All (λ t. 0 < length t.text) v.items) }
{
    let mut tokens = Vec::new(alloc);
    let mut lexer = Lexer::new(text);
    while let Some(token) = lexer.next() {
        tokens.push(token)?;
    }
    Ok(tokens)
}
