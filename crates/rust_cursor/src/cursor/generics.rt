//! Passes over what stands in angle brackets.

ghost use Rattle.std.specs.Prelude.{◌≡◌};
ghost use Rattle.rust_cursor.specs.declared.cursor.generics.Reach.TheVariants as reaches;
ghost use Rattle.rust_cursor.specs.Angles as spec;

use crate::cursor::Cursor;
use crate::cursor::nest::{Before, Nest, is_mark};
use rust_lexer::TokenKind;

/// How far tokens are passed over.
#[derive(Clone, Copy)]
pub enum Reach {
    /// Up to the `>` that closes the first `<`, and it.
    Angles,
    /// Up to a comma, a bracket that closes, or what begins an item.
    Field,
    /// Up to a `for` that no `<` follows, a `where` or a block.
    Header,
}

impl<'t> Cursor<'t> {
    /// Whether a `for` comes next that no lifetimes follow, as in `for<'a>`.
    pub fn is_lone_for(&self) -> bool
        ensures { result ≡ spec.is_lone_for self.now }
    {
        self.word() == "for" && !self.second().begins_binder()
    }

    fn begins_binder(&self) -> bool
        ensures { result ≡ spec.begins_binder self.now }
    {
        if self.symbol() != b'<' {
            return false;
        }
        let inside = self.second();
        is_lifetime(inside.kind()) || inside.symbol() == b'>'
    }

    #[inline(always)]
    fn closes_around(&self, nest: &Nest) -> bool
        ensures { result ≡ spec.closes_around nest.now self.now }
    {
        if self.symbol() == b'}' {
            return true;
        }
        nest.others == 0 && self.is_at_end()
    }

    #[inline(always)]
    fn is_barred(&self, reach: Reach, nest: &Nest) -> bool
        ensures { result ≡ spec.is_barred reach nest.now self.now }
    {
        match reach {
            Reach::Angles => self.is_barred_angles(nest),
            Reach::Field => self.is_barred_field(nest),
            Reach::Header => self.is_barred_header(nest),
        }
    }

    #[inline(always)]
    fn is_barred_angles(&self, nest: &Nest) -> bool
        ensures { result ≡ spec.is_barred reaches.Angles nest.now self.now }
    {
        if self.closes_around(nest) || self.begins(nest) {
            return true;
        }
        nest.others == 0 && (self.symbol() == b';' || self.is_behind_item(nest))
    }

    #[inline(always)]
    fn is_barred_field(&self, nest: &Nest) -> bool
        ensures { result ≡ spec.is_barred reaches.Field nest.now self.now }
    {
        if self.closes_around(nest) || self.begins(nest) {
            return true;
        }
        nest.others == 0 && nest.angles == 0 && self.symbol() == b','
    }

    #[inline(always)]
    fn is_barred_header(&self, nest: &Nest) -> bool
        ensures { result ≡ spec.is_barred reaches.Header nest.now self.now }
    {
        if self.symbol() == b'}' || self.begins(nest) {
            return true;
        }
        nest.others == 0 && self.is_header_end(nest)
    }

    #[inline(always)]
    fn is_block(&self, nest: &Nest) -> bool
        ensures { result ≡ spec.is_block nest.now self.now }
    {
        self.symbol() == b'{' && !is_mark(nest.before)
    }

    #[inline(always)]
    fn is_behind_item(&self, nest: &Nest) -> bool
        ensures { result ≡ spec.is_behind_item nest.now self.now }
    {
        is_after_block(nest.before) && !self.goes_on()
    }

    #[inline(always)]
    fn is_header_end(&self, nest: &Nest) -> bool
        ensures { result ≡ spec.is_header_end nest.now self.now }
    {
        if self.symbol() == b';' {
            return true;
        }
        if nest.angles != 0 {
            return self.is_behind_item(nest);
        }
        self.is_block(nest) || self.word() == "where" || self.is_lone_for()
    }

    #[tactic(auto, unfolding(crate::specs::Angles::is_reached))]
    fn is_reached(&self, reach: Reach, nest: &Nest) -> bool
        ensures { result ≡ spec.is_reached reach nest.now self.now }
    {
        if self.is_empty() {
            return true;
        }
        if nest.braces != 0 {
            return false;
        }
        self.is_barred(reach, nest)
    }

    #[tactic(auto, unfolding(crate::specs::Angles::reach_end), using(crate::proofs::Reaches::reaching_stop, crate::proofs::Reaches::reaching_end),)]
    fn pass_reach(&mut self, reach: Reach)
        ensures { self.new ≡ spec.reach_end reach self.old }
    {
        // That brackets can be counted is known of a cursor that was looked into.
        let _ = &self.next;
        let mut nest = Nest::before_type();
        'tokens: while !self.is_reached(reach, &nest) {
            self.nest_behind(&mut nest);
            self.bump();
            if is_closed(reach, &nest) {
                return;
            }
        }
    }

    /// Passes over what stands in angle brackets, if it comes next.
    ///
    /// Where no `>` closes it, it ends before a semicolon, a bracket that closes, or a word that can begin an item
    /// only, and behind a block that neither `>` nor `,` follows.
    #[tactic(auto, unfolding(crate::specs::Angles::behind_angles))]
    pub fn pass_angles(&mut self)
        ensures { self.new ≡ spec.behind_angles self.old }
    {
        if self.symbol() == b'<' {
            self.pass_reach(Reach::Angles);
        }
    }

    /// Passes over a field's type, up to a comma, a bracket that closes or what begins an item.
    pub fn pass_field(&mut self)
        ensures { self.new ≡ spec.behind_field self.old }
    {
        self.pass_reach(Reach::Field);
    }

    /// Behind `impl` and its generics, whether a `for` stands between a trait and a type of the impl, which ends at
    /// this place.
    #[tactic(auto, unfolding(crate::specs::Angles::is_trait_impl))]
    pub fn is_trait_impl(&self, end: usize) -> bool
        ensures { result ≡ spec.is_trait_impl end self.now }
    {
        let mut ahead = self.look_ahead();
        ahead.pass_reach(Reach::Header);
        ahead.word() == "for" && ahead.last_end() < end
    }
}

fn is_after_block(before: Before) -> bool
    ensures { result ≡ spec.is_after_block before }
{
    matches!(before, Before::Block)
}

fn is_lifetime(kind: Option<TokenKind>) -> bool
    ensures { result ≡ spec.is_lifetime kind }
{
    matches!(kind, Some(TokenKind::Lifetime | TokenKind::RawLifetime))
}

#[tactic(auto, unfolding(crate::specs::Angles::is_closed))]
fn is_closed(reach: Reach, nest: &Nest) -> bool
    ensures { result ≡ spec.is_closed reach nest.now }
{
    match reach {
        Reach::Angles => nest.is_flat() && nest.angles == 0,
        Reach::Field | Reach::Header => false,
    }
}
