//! Where a token stands.

ghost use Rattle.std.specs.Prelude.{◌≡◌, ◌+◌, ◌<◌, ◌^◌};
ghost use Rattle.rust_cursor.specs.Nests as spec;

use crate::cursor::Cursor;
use crate::cursor::keywords::leads_on;
use rust_lexer::TokenKind;

/// What the token before is for the next.
#[derive(Clone, Copy)]
pub enum Before {
    /// A `-` or `=`: a `>` right behind it closes nothing.
    Dash,
    /// The `!` of a macro call: what stands in a bracket behind it, or in braces, is the call's.
    Mark,
    /// The `#` of an attribute, or `#!`: what stands in a bracket behind it is the attribute's.
    Hash,
    /// A `*`: a `const` right behind it is that of a pointer.
    Star,
    /// A `>` that is not that of `->` or `=>`.
    Angle,
    /// A type or a value can end with it.
    End,
    /// A `}`: the same, and not behind a macro call.
    Block,
    Other,
}

/// In which brackets a token stands, and behind what.
#[derive(Clone, Copy)]
pub struct Nest {
    /// In how many braces.
    pub braces: usize,
    /// In how many of `(` and `[`.
    pub others: usize,
    /// The place among these of the first that is a macro call's or an attribute's, or 0.
    pub free: usize,
    /// In how many angle brackets, where no other bracket is open.
    pub angles: usize,
    /// In how many of `(` and `[` that were opened in braces.
    pub inner: usize,
    /// Whether one of these closed nothing.
    pub is_torn: bool,
    pub before: Before,
}

impl Nest {
    /// In no bracket, where a type or a value may have ended.
    pub(crate) fn no_bracket() -> Self
        ensures { result ≡ spec.no_bracket }
    {
        Nest::flat_behind(Before::End)
    }

    /// In no bracket, where a type begins.
    pub(crate) fn before_type() -> Self
        ensures { result ≡ spec.before_type }
    {
        Nest::flat_behind(Before::Other)
    }

    /// In no bracket.
    pub(crate) fn flat_behind(before: Before) -> Self
        ensures { result ≡ spec.flat_behind before }
    {
        Nest {
            braces: 0,
            others: 0,
            free: 0,
            angles: 0,
            inner: 0,
            is_torn: false,
            before,
        }
    }

    /// Whether no bracket in braces was left open, and none closed nothing.
    pub(crate) fn is_whole(self) -> bool
        ensures { result ≡ spec.is_whole self }
    {
        self.inner == 0 && !self.is_torn
    }

    /// In no bracket, but for angle brackets.
    pub(crate) fn is_flat(self) -> bool
        ensures { result ≡ spec.is_flat self }
    {
        self.braces == 0 && self.others == 0
    }
}

impl<'t> Cursor<'t> {
    fn is_arrow(&self, before: Before) -> bool
        ensures { result ≡ spec.is_arrow before self.now }
    {
        is_dash(before) && self.is_glued()
    }

    fn angles_behind(&self, nest: Nest) -> usize
        requires { nest.angles + 1 < 2 ^ 64 }
        ensures { result ≡ spec.angles_behind nest self.now }
    {
        match self.symbol() {
            b'<' => nest.angles + 1,
            b'>' => {
                if self.is_arrow(nest.before) {
                    nest.angles
                } else {
                    nest.angles.saturating_sub(1)
                }
            }
            _ => nest.angles,
        }
    }

    /// Whether a type or a value can end with the next token: a name, a literal, or a bracket that closes.
    #[inline(always)]
    pub fn can_end(&self) -> bool
        ensures { result ≡ spec.can_end self.now }
    {
        if self.is_at_identifier() {
            return !leads_on(self.word());
        }
        is_literal_kind(self.kind()) || self.is_at_end()
    }

    #[inline(always)]
    fn symbol_before(&self, before: Before) -> Before
        ensures { result ≡ spec.symbol_before before self.now }
    {
        match self.symbol() {
            b'-' | b'=' => Before::Dash,
            b'!' => mark_behind(before),
            b'#' => Before::Hash,
            b'*' => Before::Star,
            b'>' => {
                if self.is_arrow(before) {
                    Before::Other
                } else {
                    Before::Angle
                }
            }
            _ => Before::Other,
        }
    }

    #[inline(always)]
    fn before_behind(&self, before: Before) -> Before
        ensures { result ≡ spec.before_behind before self.now }
    {
        if self.is_at_doc() {
            return before;
        }
        if self.can_end() {
            return Before::End;
        }
        self.symbol_before(before)
    }

    #[inline(always)]
    fn before_outside(&self, nest: Nest) -> Before
        requires { nest.others + 1 < 2 ^ 64 }
        ensures { result ≡ spec.before_outside nest self.now }
    {
        let symbol = self.symbol();
        if symbol == b'{' || free_behind(nest, symbol) != 0 {
            return nest.before;
        }
        if nest.free == 0 {
            return self.before_behind(nest.before);
        }
        behind_free(nest.before)
    }

    #[inline(always)]
    fn nest_outside(&self, nest: &mut Nest)
        requires others { nest.old.others + 1 < 2 ^ 64 }
        requires angles { nest.old.angles + 1 < 2 ^ 64 }
        ensures { nest.new ≡ spec.nest_outside nest.old self.now }
    {
        let symbol = self.symbol();
        let before = self.before_outside(*nest);
        if nest.others == 0 {
            nest.angles = self.angles_behind(*nest);
        }
        nest.is_torn = nest.is_torn || closes_none(nest.others, symbol);
        nest.free = free_behind(*nest, symbol);
        nest.others = others_behind(nest.others, symbol);
        nest.braces = braces_behind(0, symbol);
        nest.before = before;
    }

    /// Counts the brackets that what stands behind the next token is in, and nothing else of it.
    #[inline(always)]
    #[tactic(auto, unfolding(crate::specs::Nests::nest_behind))]
    pub(crate) fn brackets_behind(&self, nest: &mut Nest)
        requires braces { nest.old.braces + 1 < 2 ^ 64 }
        requires others { nest.old.others + 1 < 2 ^ 64 }
        ensures braces { nest.new.braces ≡ (spec.nest_behind nest.old self.now).braces }
        ensures others { nest.new.others ≡ (spec.nest_behind nest.old self.now).others }
    {
        let symbol = self.symbol();
        if nest.braces != 0 {
            nest.braces = braces_behind(nest.braces, symbol);
            return;
        }
        nest.others = others_behind(nest.others, symbol);
        nest.braces = braces_behind(0, symbol);
    }

    /// Tells where what stands behind the next token is, in braces.
    #[inline(always)]
    pub(crate) fn nest_inside(&self, nest: &mut Nest)
        requires braces { nest.old.braces + 1 < 2 ^ 64 }
        requires inner { nest.old.inner + 1 < 2 ^ 64 }
        ensures { nest.new ≡ spec.nest_inside nest.old self.now }
    {
        count_inside(self.symbol(), nest);
    }

    /// Tells where what stands behind the next token is.
    #[inline(always)]
    #[tactic(auto, unfolding(crate::specs::Nests::nest_behind))]
    pub(crate) fn nest_behind(&self, nest: &mut Nest)
        requires braces { nest.old.braces + 1 < 2 ^ 64 }
        requires others { nest.old.others + 1 < 2 ^ 64 }
        requires angles { nest.old.angles + 1 < 2 ^ 64 }
        requires inner { nest.old.inner + 1 < 2 ^ 64 }
        ensures { nest.new ≡ spec.nest_behind nest.old self.now }
    {
        if nest.braces != 0 {
            self.nest_inside(nest);
            return;
        }
        match self.symbol() {
            b'(' | b'[' | b'{' | b')' | b']' | b'}' | b'<' | b'>' => {
                self.nest_outside(nest);
            }
            _ => nest.before = self.before_outside(*nest),
        }
    }
}

/// The same of what stands behind a symbol.
#[inline(always)]
pub(crate) fn count_inside(symbol: u8, nest: &mut Nest)
    requires braces { nest.old.braces + 1 < 2 ^ 64 }
    requires inner { nest.old.inner + 1 < 2 ^ 64 }
    ensures { nest.new ≡ spec.inside_behind nest.old symbol }
{
    match symbol {
        b'{' => nest.braces += 1,
        b'}' => {
            if nest.braces == 1 {
                nest.before = behind_braces(*nest);
            }
            nest.braces = nest.braces.saturating_sub(1);
        }
        b'(' | b'[' => nest.inner += 1,
        b')' | b']' => {
            nest.is_torn = nest.is_torn || nest.inner == 0;
            nest.inner = nest.inner.saturating_sub(1);
        }
        _ => {}
    }
}

fn is_dash(before: Before) -> bool
    ensures { result ≡ spec.is_dash before }
{
    matches!(before, Before::Dash)
}

pub(crate) fn is_mark(before: Before) -> bool
    ensures { result ≡ spec.is_mark before }
{
    matches!(before, Before::Mark)
}

pub(crate) fn is_star(before: Before) -> bool
    ensures { result ≡ spec.is_star before }
{
    matches!(before, Before::Star)
}

fn lets_any(before: Before) -> bool
    ensures { result ≡ spec.lets_any before }
{
    matches!(before, Before::Mark | Before::Hash)
}

fn mark_behind(before: Before) -> Before
    ensures { result ≡ spec.mark_behind before }
{
    match before {
        Before::End | Before::Block => Before::Mark,
        Before::Hash => Before::Hash,
        Before::Dash | Before::Mark | Before::Star | Before::Angle | Before::Other => Before::Other,
    }
}

fn behind_free(before: Before) -> Before
    ensures { result ≡ spec.behind_free before }
{
    match before {
        Before::Hash => Before::Other,
        Before::Dash
        | Before::Mark
        | Before::Star
        | Before::Angle
        | Before::End
        | Before::Block
        | Before::Other => Before::End,
    }
}

fn behind_block(before: Before) -> Before
    ensures { result ≡ spec.behind_block before }
{
    match before {
        Before::Mark => Before::End,
        Before::Dash
        | Before::Hash
        | Before::Star
        | Before::Angle
        | Before::End
        | Before::Block
        | Before::Other => Before::Block,
    }
}

fn behind_braces(nest: Nest) -> Before
    ensures { result ≡ spec.behind_braces nest }
{
    if nest.free == 0 {
        behind_block(nest.before)
    } else {
        nest.before
    }
}

pub(crate) fn is_literal_kind(kind: Option<TokenKind>) -> bool
    ensures { result ≡ spec.is_literal_kind kind }
{
    matches!(kind, Some(TokenKind::Literal(_)))
}

pub(crate) fn closes_other(symbol: u8) -> bool
    ensures { result ≡ spec.closes_other symbol }
{
    matches!(symbol, b')' | b']')
}

fn braces_behind(braces: usize, symbol: u8) -> usize
    requires { braces + 1 < 2 ^ 64 }
    ensures { result ≡ spec.braces_behind braces symbol }
{
    match symbol {
        b'{' => braces + 1,
        b'}' => braces.saturating_sub(1),
        _ => braces,
    }
}

fn closes_none(count: usize, symbol: u8) -> bool
    ensures { result ≡ spec.closes_none count symbol }
{
    count == 0 && closes_other(symbol)
}

fn others_behind(others: usize, symbol: u8) -> usize
    requires { others + 1 < 2 ^ 64 }
    ensures { result ≡ spec.others_behind others symbol }
{
    match symbol {
        b'(' | b'[' => others + 1,
        b')' | b']' => others.saturating_sub(1),
        b'}' => 0,
        _ => others,
    }
}

fn free_open(nest: Nest) -> usize
    requires { nest.others + 1 < 2 ^ 64 }
    ensures { result ≡ spec.free_open nest }
{
    if nest.free == 0 && lets_any(nest.before) {
        nest.others + 1
    } else {
        nest.free
    }
}

fn free_closed(nest: Nest) -> usize
    ensures { result ≡ spec.free_closed nest }
{
    if nest.others == nest.free {
        0
    } else {
        nest.free
    }
}

fn free_behind(nest: Nest, symbol: u8) -> usize
    requires { nest.others + 1 < 2 ^ 64 }
    ensures { result ≡ spec.free_behind nest symbol }
{
    match symbol {
        b'(' | b'[' => free_open(nest),
        b')' | b']' => free_closed(nest),
        b'}' => 0,
        _ => nest.free,
    }
}
