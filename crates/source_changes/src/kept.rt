//! The tokens of a text that count, without those that stand in some parts of it.

ghost use Rattle.std.specs.Prelude.{◌≡◌, ◌↔◌, ◌+◌, ◌≤◌, ◌<◌, ℕ, Bool, false, List, [], ◌∷◌, IfSome, IsTrue};
ghost use Rattle.std.specs.Prelude.{MatchOption, length};
ghost use Rattle.source_rows.specs.Comments.{is_documentation};
ghost use Rattle.source_changes.specs.DocAttributes.{docs_as_comments};
ghost use Rattle.source_changes.specs.Inner as inner;
ghost use Rattle.source_changes.specs.Skeletons as spec;
ghost use Rattle.source_changes.specs.ChangeViews.{skeleton_view};

use crate::doc_attributes::{is_apart, pass_doc_attribute};
use crate::line_texts::is_same_text;
use rust_lexer::{Depth, Lexer, Token, TokenKind};

/// A part of a text, in bytes.
#[derive(Clone, Copy, Debug, PartialEq, Eq)]
pub struct Hole {
    pub start: usize,
    pub end: usize,
}

fn documents(kind: TokenKind) -> bool
    ensures { result ≡ is_documentation kind }
{
    matches!(kind, TokenKind::LineComment(_) | TokenKind::BlockComment(_))
}

/// Whether a token counts: it is neither white space nor a comment, and documentation only where that is asked.
fn counts(token: &Token<'_>, has_docs: bool) -> bool
    ensures { result ≡ spec.counts has_docs token.now }
{
    if !token.is_significant() {
        return false;
    }
    has_docs || !documents(token.kind())
}

/// Those of some parts that do not end before a place.
pub(crate) fn not_over(place: usize, holes: &[Hole]) -> &[Hole]
    ensures { result.now ≡ spec.not_over place holes.now }
{
    let mut left = holes;
    while let [hole, more @ ..] = left {
        if place < hole.end {
            return left;
        }
        left = more;
    }
    left
}

pub(crate) fn is_begun(place: usize, holes: &[Hole]) -> bool
    ensures { result ≡ spec.is_begun place holes.now }
{
    match holes {
        [hole, ..] => hole.start <= place,
        [] => false,
    }
}

/// In the braces that a `{` opens.
const INSIDE: Depth = Depth {
    braces: 1,
    inner: 0,
    is_torn: false,
};

/// Whether the first of some parts ends behind all tokens before the next one, if there is one.
fn ends_behind(lexer: &Lexer<'_>, holes: &[Hole]) -> bool
    ensures { result ≡ inner.ends_behind lexer.now holes.now }
{
    match (lexer.copy().next(), holes) {
        (Some(next), [hole, ..]) => next.at() <= hole.end,
        _ => false,
    }
}

/// Passes over what stands in braces behind a token, if the token opens them and all of that stands in the first of
/// some parts. Where that is tried in vain, it is not tried again: braces that are not closed are looked for up to the
/// end of the text.
fn pass_hole(token: &Token<'_>, holes: &[Hole], may_pass: &mut bool, lexer: &mut Lexer<'_>)
    requires { inner.ComeBehind (token.now.at + length token.now.text) lexer.old }
    ensures same { (has_docs : Bool) (before : ℕ) →
        spec.kept_tokens has_docs holes.now before (docs_as_comments has_docs 0 lexer.new)
        ≡ spec.kept_tokens has_docs holes.now before (docs_as_comments has_docs 0 lexer.old) }
    ensures after { inner.ComeBehind (token.now.at + length token.now.text) lexer.new }
    ensures fewer { length lexer.new ≤ length lexer.old }
{
    if !*may_pass || token.symbol() != b'{' || !is_begun(token.end(), holes) {
        return;
    }
    *may_pass = false;
    let mut ahead = lexer.copy();
    let Some(_around) = ahead.pass_braces(INSIDE) else {
        return;
    };
    if ends_behind(&ahead, holes) {
        *lexer = ahead;
        *may_pass = true;
    }
}

/// What is left of a text, of which the tokens are taken that count and stand in none of some parts.
#[derive(Drop)]
struct Kept<'a> {
    lexer: Lexer<'a>,
    /// The symbol of the token before, whether or not that was taken, and 0 behind an attribute that documents as
    /// behind a comment.
    before: u8,
    holes: &'a [Hole],
    has_docs: bool,
    may_pass: bool,
}

/// Whether a token is taken that comes in front of what is left. What need not be looked at behind it is passed over.
fn is_taken(token: &Token<'_>, left: &mut Kept<'_>) -> bool
    requires { inner.ComeBehind (token.now.at + length token.now.text) left.old.lexer }
    ensures same { let seen = docs_as_comments left.old.has_docs 0 (token.now ∷ left.old.lexer) in
        spec.kept_tokens left.old.has_docs left.old.holes.now left.old.before seen
        ≡ inner.text_first result (spec.token_text left.old.before token.now) (inner.left_texts left.new) }
    ensures after { inner.ComeBehind 0 left.new.lexer }
    ensures fewer { length left.new.lexer ≤ length left.old.lexer }
{
    if pass_doc_attribute(token, left.has_docs, &mut left.lexer) {
        left.before = 0;
        return false;
    }
    left.before = token.symbol();
    if !counts(token, left.has_docs) {
        return false;
    }
    left.holes = not_over(token.at(), left.holes);
    pass_hole(token, left.holes, &mut left.may_pass, &mut left.lexer);
    !is_begun(token.at(), left.holes)
}

/// What tells a token.
#[derive(Clone, Copy)]
struct Told<'a> {
    /// Whether it is one mark with the token before it.
    is_joint: bool,
    text: &'a str,
}

/// What can stand before a `=` with which it is one mark.
fn stands_before_equals(symbol: u8) -> bool
    ensures { result ≡ spec.stands_before_equals symbol }
{
    matches!(
        symbol,
        b'=' | b'!' | b'<' | b'+' | b'-' | b'*' | b'/' | b'%' | b'^' | b'&' | b'|' | b'.'
    )
}

/// Whether a symbol directly behind another is one mark with it.
fn is_joint(before: u8, symbol: u8) -> bool
    ensures { result ≡ spec.is_one_mark before symbol }
{
    match symbol {
        b'>' => before == b'=' || before == b'-',
        b'=' => stands_before_equals(before),
        b':' | b'.' => symbol == before,
        _ => false,
    }
}

/// The next token that is taken.
fn next_taken<'a>(left: &mut Kept<'a>) -> Option<Told<'a>>
    requires { inner.ComeBehind 0 left.old.lexer }
    ensures taken { MatchOption result (inner.left_texts left.old ≡ [])
        (λ t. inner.left_texts left.old ≡ inner.told_text t ∷ inner.left_texts left.new) }
    ensures after { inner.ComeBehind 0 left.new.lexer }
    ensures fewer { IfSome result (λ t. length left.new.lexer < length left.old.lexer) }
{
    'tokens: while let Some(token) = left.lexer.next() {
        let is_joint = is_joint(left.before, token.symbol());
        if is_taken(&token, left) {
            return Some(Told {
                is_joint,
                text: token.text(),
            });
        }
    }
    None
}

fn is_same_token(one: Told<'_>, other: Told<'_>) -> bool
    ensures { IsTrue result ↔ (inner.told_text one.entry ≡ inner.told_text other.entry) }
{
    if one.is_joint != other.is_joint {
        return false;
    }
    is_same_text(one.text, other.text)
}

/// Whether the next token that is taken is told so.
fn is_next(one: Told<'_>, left: &mut Kept<'_>) -> bool
    requires { inner.ComeBehind 0 left.old.lexer }
    ensures next { (more : List (List ℕ)) → (inner.told_text one.entry ∷ more ≡ inner.left_texts left.old)
        ↔ (IsTrue result × (more ≡ inner.left_texts left.new)) }
    ensures after { inner.ComeBehind 0 left.new.lexer }
{
    match next_taken(left) {
        Some(other) => is_same_token(one, other),
        None => false,
    }
}

/// A place before which some parts neither begin nor end.
fn beginning(holes: &[Hole]) -> usize
    ensures { inner.IsBefore result holes.now }
{
    match holes {
        [hole, ..] => hole.start.min(hole.end),
        [] => usize::MAX,
    }
}

/// A place before which some parts and others are the same.
fn same_until(ours: &[Hole], theirs: &[Hole]) -> usize
    ensures { inner.AreSameUntil result ours.now theirs.now }
{
    let (mut ours, mut theirs) = (ours, theirs);
    while let [one, more @ ..] = ours {
        let [other, others @ ..] = theirs else {
            break;
        };
        if one != other {
            break;
        }
        ours = more;
        theirs = others;
    }
    beginning(ours).min(beginning(theirs))
}

/// Whether a symbol is one mark with none that stands before it.
fn is_apart_mark(symbol: u8) -> bool
    ensures { IsTrue result → (before : ℕ) → spec.is_one_mark before symbol ≡ false }
{
    !matches!(symbol, b'>' | b'=' | b':' | b'.')
}

/// Whether what comes first is no mark with what stands before it, whatever that is, and ends no attribute that
/// documents.
fn is_lone(lexer: &Lexer<'_>, has_docs: bool) -> bool
    ensures { IsTrue result → inner.IsLone has_docs lexer.now }
{
    match lexer.copy().next() {
        Some(next) => is_apart_mark(next.symbol()) && (has_docs || is_apart(lexer)),
        None => true,
    }
}

fn are_lone(ours: &Lexer<'_>, theirs: &Lexer<'_>, has_docs: bool) -> bool
    ensures { IsTrue result → inner.IsLone has_docs ours.now × inner.IsLone has_docs theirs.now }
{
    is_lone(ours, has_docs) && is_lone(theirs, has_docs)
}

/// Passes over tokens with which two texts go on alike.
fn pass_same(ours: &mut Kept<'_>, theirs: &mut Kept<'_>)
    requires ours { inner.ComeBehind 0 ours.old.lexer }
    requires theirs { inner.ComeBehind 0 theirs.old.lexer }
    ensures same { (inner.left_texts ours.new ≡ inner.left_texts theirs.new)
        ↔ (inner.left_texts ours.old ≡ inner.left_texts theirs.old) }
    ensures ours { inner.ComeBehind 0 ours.new.lexer }
    ensures theirs { inner.ComeBehind 0 theirs.new.lexer }
{
    if ours.has_docs != theirs.has_docs {
        return;
    }
    if ours.before != theirs.before {
        return;
    }
    let place = same_until(ours.holes, theirs.holes);
    let mut our_rest = ours.lexer.copy();
    let mut their_rest = theirs.lexer.copy();
    our_rest.pass_same(&mut their_rest, place);
    if !are_lone(&our_rest, &their_rest, ours.has_docs) {
        return;
    }
    ours.lexer = our_rest;
    theirs.lexer = their_rest;
}

/// Whether the same tokens are taken of two texts.
fn are_all_same(mut ours: Kept<'_>, mut theirs: Kept<'_>) -> bool
    requires ours { inner.ComeBehind 0 ours.lexer }
    requires theirs { inner.ComeBehind 0 theirs.lexer }
    ensures { IsTrue result ↔ (inner.left_texts ours.entry ≡ inner.left_texts theirs.entry) }
{
    'texts: while let Some(one) = next_taken(&mut ours) {
        if !is_next(one, &mut theirs) {
            return false;
        }
    }
    next_taken(&mut theirs).is_none()
}

/// The same, where both may go on alike behind the first.
fn are_same(mut ours: Kept<'_>, mut theirs: Kept<'_>) -> bool
    requires ours { inner.ComeBehind 0 ours.lexer }
    requires theirs { inner.ComeBehind 0 theirs.lexer }
    ensures { IsTrue result ↔ (inner.left_texts ours.entry ≡ inner.left_texts theirs.entry) }
{
    let Some(one) = next_taken(&mut ours) else {
        return next_taken(&mut theirs).is_none();
    };
    if !is_next(one, &mut theirs) {
        return false;
    }
    pass_same(&mut ours, &mut theirs);
    are_all_same(ours, theirs)
}

/// A text, told by the texts of its tokens that count and stand in none of some parts.
///
/// Documentation counts where that is asked. The parts come in order: one that begins before an earlier one ends is
/// looked at when that has ended.
#[derive(Clone, Copy, Debug)]
pub struct Skeleton<'a> {
    pub text: &'a str,
    pub holes: &'a [Hole],
    pub has_docs: bool,
}

#[tactic(auto, using(crate::proofs::Texts::text_told))]
fn is_same_whole(old: &str, new: &str) -> bool
    ensures { IsTrue result ↔ (old.now ≡ new.now) }
{
    old == new
}

fn are_same_holes(old: &[Hole], new: &[Hole]) -> bool
    ensures { IsTrue result ↔ (old.now ≡ new.now) }
{
    old == new
}

impl<'a> Skeleton<'a> {
    fn is_written_as(self, other: Skeleton<'_>) -> bool
        ensures { IsTrue result → skeleton_view self.entry ≡ skeleton_view other.entry }
    {
        if self.has_docs != other.has_docs || !is_same_whole(self.text, other.text) {
            return false;
        }
        are_same_holes(self.holes, other.holes)
    }

    fn into_kept(self) -> Kept<'a>
        ensures value { inner.left_texts result ≡ skeleton_view self.entry }
        ensures after { inner.ComeBehind 0 result.lexer }
    {
        Kept {
            lexer: Lexer::new(self.text),
            before: 0,
            may_pass: true,
            holes: self.holes,
            has_docs: self.has_docs,
        }
    }

    /// Whether another has the same tokens.
    pub fn is_same(self, other: Skeleton<'_>) -> bool
        ensures { IsTrue result ↔ (skeleton_view self.entry ≡ skeleton_view other.entry) }
    {
        // Most are written as they were: their tokens are not looked at.
        self.is_written_as(other) || are_same(self.into_kept(), other.into_kept())
    }
}
