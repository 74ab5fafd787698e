//! Takes what comes next.

ghost use Rattle.std.specs.Prelude.{◌≡◌};
ghost use Rattle.rust_cursor.specs.Words as spec;

use crate::cursor::Cursor;

impl<'t> Cursor<'t> {
    /// Takes the bracket or the punctuation, if it comes next.
    #[tactic(auto, unfolding(crate::specs::Words::eat))]
    pub fn eat(&mut self, symbol: u8) -> bool
        ensures { spec.eat symbol self.old ≡ (result, self.new) }
    {
        let found = self.symbol() == symbol;
        if found {
            self.bump();
        }
        found
    }

    /// Takes the keyword or the name, if it comes next.
    #[tactic(auto, unfolding(crate::specs::Words::eat_word))]
    pub fn eat_word(&mut self, word: &str) -> bool
        ensures { spec.eat_word word.now self.old ≡ (result, self.new) }
    {
        let found = self.word() == word;
        if found {
            self.bump();
        }
        found
    }

    /// Whether nothing stands between the last token that was taken and the next.
    #[tactic(auto, unfolding(crate::specs::Words::is_glued))]
    pub fn is_glued(&self) -> bool
        ensures { result ≡ spec.is_glued self.now }
    {
        self.at() == self.last_end()
    }

    /// Whether two symbols come next with nothing between them, as in `->`.
    #[tactic(auto, unfolding(crate::specs::Words::is_pair))]
    pub fn is_pair(&self, first: u8, second: u8) -> bool
        ensures { result ≡ spec.is_pair first second self.now }
    {
        if self.symbol() != first {
            return false;
        }
        let behind = self.second();
        behind.is_glued() && behind.symbol() == second
    }

    /// Takes two symbols with nothing between them, if they come next.
    #[tactic(auto, unfolding(crate::specs::Words::eat_pair, crate::specs::Words::is_pair))]
    pub fn eat_pair(&mut self, first: u8, second: u8) -> bool
        ensures { spec.eat_pair first second self.old ≡ (result, self.new) }
    {
        if self.symbol() != first {
            return false;
        }
        let mut behind = self.second();
        if !behind.is_glued() || behind.symbol() != second {
            return false;
        }
        behind.bump();
        *self = behind;
        true
    }

    /// Takes `::`, if it comes next.
    pub fn eat_colons(&mut self) -> bool
        ensures { spec.eat_colons self.old ≡ (result, self.new) }
    {
        self.eat_pair(b':', b':')
    }
}
