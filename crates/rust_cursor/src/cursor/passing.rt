//! Passes over what stands in brackets.

ghost use Rattle.std.specs.Prelude.{◌≡◌, IfSome};
ghost use Rattle.rust_cursor.specs.Brackets as spec;
ghost use Rattle.rust_cursor.specs.Elements as elements;
ghost use Rattle.rust_cursor.specs.Matched.{behind_match};

use crate::cursor::Cursor;
use crate::cursor::nest::{Nest, closes_other};

impl<'t> Cursor<'t> {
    fn shuts(&self, bracket: u8, nest: Nest) -> bool
        ensures { result ≡ spec.shuts bracket nest self.now }
    {
        if self.symbol() == b'}' {
            return true;
        }
        bracket != b'{' && nest.others == 0 && closes_other(self.symbol())
    }

    #[tactic(auto, unfolding(crate::specs::Brackets::is_closing))]
    fn is_closing(&self, bracket: u8, nest: Nest) -> bool
        ensures { result ≡ spec.is_closing bracket nest self.now }
    {
        if self.is_empty() {
            return true;
        }
        nest.braces == 0 && self.shuts(bracket, nest)
    }

    /// Passes over what stands before the bracket that closes one that was opened by this symbol, or that closes the
    /// braces around it.
    #[tactic(auto, unfolding(crate::specs::Brackets::to_closing), using(crate::proofs::Steps::closing_stop))]
    pub fn pass_to_closing(&mut self, bracket: u8)
        ensures { self.new ≡ spec.to_closing bracket self.old }
    {
        // That the brackets can be counted is known of a cursor that was looked into.
        let _ = &self.next;
        let mut nest = Nest::no_bracket();
        'tokens: while !self.is_closing(bracket, nest) {
            self.brackets_behind(&mut nest);
            self.bump();
        }
    }

    /// Passes over what stands up to the bracket that closes one that was opened by this symbol, and it.
    ///
    /// Where a brace that closes what is around comes first, it ends before that.
    #[tactic(auto, unfolding(crate::specs::Brackets::behind_closed))]
    pub fn pass_closed(&mut self, bracket: u8)
        ensures { self.new ≡ spec.behind_closed bracket self.old }
    {
        self.pass_to_closing(bracket);
        if bracket == b'{' {
            self.bump();
            return;
        }
        if self.symbol() != b'}' {
            self.bump();
        }
    }

    /// Passes over a token, or what stands in brackets: where these match, up to the bracket that matches the first,
    /// and it.
    #[tactic(auto, unfolding(crate::specs::Brackets::behind_tree), using(crate::proofs::MatchedBrackets::tree_matched))]
    pub fn pass_tree(&mut self)
        ensures passed { self.new ≡ spec.behind_tree self.old }
        ensures matched { IfSome (behind_match self.old) (λ left. self.new.left ≡ left) }
    {
        if self.is_at_open() {
            let bracket = self.symbol();
            self.bump();
            self.pass_closed(bracket);
        } else {
            self.bump();
        }
    }

    /// Passes over a tree where no token was taken since this place, so that each turn of a loop takes one.
    #[tactic(auto, unfolding(crate::specs::Elements::progress_from))]
    pub fn pass_beyond(&mut self, past: usize)
        ensures { self.new ≡ elements.progress_from past self.old }
    {
        if self.last_end() == past {
            self.pass_tree();
        }
    }

    /// More turns than a text has tokens.
    #[tactic(auto, unfolding(crate::specs::Elements::most_tokens))]
    pub fn most_turns() -> usize
        ensures { result ≡ elements.most_tokens }
    {
        usize::MAX
    }
}
