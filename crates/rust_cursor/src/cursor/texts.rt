//! The texts of what is taken.

ghost use Rattle.std.specs.Prelude.{ℕ, ◌≡◌, ◌≤◌, ◌<◌, ◌+◌, ◌^◌, ◌++◌, ◌==◌, ◌&&◌, not, false, if◌then◌else◌, OnOk};
ghost use Rattle.std.specs.Prelude.{Option, length, string_bytes, filter};
ghost use Rattle.rust_lexer.specs.Tokens.{is_significant};
ghost use Rattle.rust_cursor.specs.Extents as spec;
ghost use Rattle.rust_cursor.specs.Reader.{Gives};
ghost use Rattle.rust_cursor.specs.Tokens.{Tokens, last_unended, left_of};
ghost use Rattle.rust_cursor.specs.Words.{bumped, is_empty, symbol};

use crate::among::is_among;
use crate::cursor::keywords::leads_item;
use crate::cursor::nest::{Before, Nest, count_inside, is_literal_kind, is_mark, is_star};
use crate::cursor::{Cursor, note_last};
use rust_lexer::{Depth, Lexer, Token};
use std::alloc::{AllocError, Global};

/// How far tokens are taken, and what stands between their texts.
#[derive(Clone, Copy)]
pub(crate) enum Extent {
    /// A token, or what stands in brackets, with a blank between each two that are not joined.
    Tree,
    /// A token, or what stands in brackets, with a blank between each two.
    Group,
    /// Up to a semicolon, with a blank between each two.
    Value,
    /// Up to a semicolon or a block, with a blank between each two.
    Item,
    /// The same where any tokens may stand in the first bracket.
    Macro,
}

/// A text that was taken.
#[derive(Drop)]
pub struct Excerpt<'t> {
    /// Empty where it was not to be kept.
    pub text: String,
    /// Whether it ends with its end and its brackets are closed.
    pub is_ended: bool,
    /// What is left from the `{` on of the braces that it ends with, if it ends with braces.
    pub block: Option<Cursor<'t>>,
}

impl<'t> Cursor<'t> {
    /// Whether a word comes next that can begin an item only.
    #[tactic(auto, unfolding(crate::specs::Extents::begins_item))]
    pub fn begins_item(&self) -> bool
        ensures { result ≡ spec.begins_item self.now }
    {
        match self.word() {
            "pub" | "mod" | "struct" | "enum" | "trait" => true,
            "use" => self.second().follows_use(),
            "static" => self.second().follows_static(),
            "fn" | "type" | "macro" => self.second().is_at_identifier(),
            "union" => self.second().follows_union(),
            "macro_rules" => self.second().follows_macro_rules(),
            "extern" => self.second().follows_extern(),
            _ => false,
        }
    }

    fn follows_use(&self) -> bool
        ensures { result ≡ spec.follows_use self.now }
    {
        self.is_at_identifier() || matches!(self.symbol(), b':' | b'*' | b'{')
    }

    fn follows_static(&self) -> bool
        ensures { result ≡ spec.follows_static self.now }
    {
        self.is_at_identifier() && !matches!(self.word(), "move" | "use" | "async")
    }

    fn follows_union(&self) -> bool
        ensures { result ≡ spec.follows_union self.now }
    {
        self.is_at_identifier()
            && !is_among(self.word(), &["as", "else", "for", "if", "in", "where"])
    }

    fn follows_extern(&self) -> bool
        ensures { result ≡ spec.follows_extern self.now }
    {
        if self.word() == "crate" || self.symbol() == b'{' {
            return true;
        }
        is_literal_kind(self.kind()) && self.second().symbol() == b'{'
    }

    fn follows_macro_rules(&self) -> bool
        ensures { result ≡ spec.follows_macro_rules self.now }
    {
        self.symbol() == b'!' && self.second().is_at_identifier()
    }

    fn follows_const(&self) -> bool
        ensures { result ≡ spec.follows_const self.now }
    {
        if self.word() == "fn" {
            return self.second().is_at_identifier();
        }
        if !self.is_at_identifier() {
            return false;
        }
        let behind = self.second();
        behind.symbol() == b':' && !behind.is_pair(b':', b':')
    }

    #[tactic(auto, unfolding(crate::specs::Extents::begins_impl_or_const))]
    fn begins_impl_or_const(&self) -> bool
        ensures { result ≡ spec.begins_impl_or_const self.now }
    {
        match self.word() {
            "impl" => true,
            "unsafe" => self.second().word() == "impl",
            "const" => self.second().follows_const(),
            _ => false,
        }
    }

    fn begins_behind(&self, before: Before) -> bool
        ensures { result ≡ spec.begins_behind before self.now }
    {
        match before {
            Before::End | Before::Block => {
                if self.symbol() == b'#' {
                    return self.second().symbol() == b'[';
                }
                self.begins_impl_or_const()
            }
            Before::Angle => self.begins_impl_or_const(),
            Before::Dash | Before::Mark | Before::Hash | Before::Star | Before::Other => false,
        }
    }

    #[tactic(auto, unfolding(crate::specs::Extents::begins_within))]
    fn begins_within(&self) -> bool
        ensures { result ≡ spec.begins_within self.now }
    {
        match self.word() {
            "pub" => false,
            "use" => self.second().is_at_identifier(),
            _ => self.begins_item(),
        }
    }

    /// Whether an item begins, in no brace.
    #[inline(always)]
    pub(crate) fn begins(&self, nest: &Nest) -> bool
        ensures { result ≡ spec.begins nest.now self.now }
    {
        // Most words begin none, and are told by their length and two bytes.
        if !leads_item(self.word()) && self.symbol() != b'#' && !self.is_at_doc() {
            return false;
        }
        self.begins_with(nest)
    }

    /// The same where a word may tell it.
    #[inline(never)]
    fn begins_with(&self, nest: &Nest) -> bool
        ensures { result ≡ spec.begins nest.now self.now }
    {
        if nest.others == 0 {
            return self.begins_item()
                || self.begins_behind(nest.before)
                || self.documents_item(nest)
                || self.begins_const(nest);
        }
        nest.free == 0 && self.begins_within()
    }

    fn documents_item(&self, nest: &Nest) -> bool
        ensures { result ≡ spec.documents_item nest.now self.now }
    {
        self.is_at_doc() && nest.angles == 0
    }

    /// Whether a constant with a name comes next, which is neither a parameter nor a pointer.
    fn begins_const(&self, nest: &Nest) -> bool
        ensures { result ≡ spec.begins_const nest.now self.now }
    {
        self.word() == "const"
            && nest.angles == 0
            && !is_star(nest.before)
            && self.second().follows_const()
    }

    #[inline(always)]
    fn stops_outside(&self, extent: Extent, nest: &Nest) -> bool
        ensures { result ≡ spec.stops_outside extent nest.now self.now }
    {
        match extent {
            Extent::Tree | Extent::Group => nest.others != 0 && self.symbol() == b'}',
            Extent::Value | Extent::Item | Extent::Macro => {
                self.symbol() == b'}' || self.begins(nest)
            }
        }
    }

    #[inline(always)]
    #[tactic(auto, unfolding(crate::specs::Extents::stops))]
    fn stops(&self, extent: Extent, nest: &Nest) -> bool
        ensures { result ≡ spec.stops extent nest.now self.now }
    {
        if self.is_empty() {
            return true;
        }
        if nest.braces != 0 {
            return false;
        }
        self.stops_outside(extent, nest)
    }

    pub(crate) fn goes_on(&self) -> bool
        ensures { result ≡ spec.goes_on self.now }
    {
        matches!(self.symbol(), b'>' | b',')
    }

    fn ends_flat(&self, extent: Extent, is_call: bool, angles: usize) -> bool
        ensures { result ≡ spec.ends_flat extent is_call angles self.now }
    {
        match extent {
            Extent::Tree | Extent::Group => true,
            Extent::Value => self.symbol() == b';',
            Extent::Item => match self.symbol() {
                b';' => true,
                b'}' => !is_call && (angles == 0 || !self.second().goes_on()),
                _ => false,
            },
            Extent::Macro => matches!(self.symbol(), b';' | b'}'),
        }
    }

    #[tactic(auto, unfolding(crate::specs::Extents::ends))]
    fn ends(&self, extent: Extent, is_call: bool, behind: Nest) -> bool
        ensures { result ≡ spec.ends extent is_call behind self.now }
    {
        behind.is_flat() && self.ends_flat(extent, is_call, behind.angles)
    }

    /// Puts down the braces that the next token opens, in no other.
    #[inline(always)]
    fn note_opened(&self, nest: Nest, opened: &mut Option<Cursor<'t>>)
        ensures { opened.new ≡ spec.opened_behind opened.old nest self.now }
    {
        if nest.braces == 0 && self.symbol() == b'{' {
            *opened = Some(self.look_ahead());
        }
    }

    fn block_at(&self, opened: Option<Cursor<'t>>) -> Option<Cursor<'t>>
        ensures { result ≡ spec.block_at opened.entry self.now }
    {
        if self.symbol() == b'}' { opened } else { None }
    }

    /// Whether nothing stands between the next token and one of this symbol before it, in a tree's text.
    #[tactic(auto, unfolding(crate::specs::Extents::is_joined))]
    fn is_joined(&self, last: u8) -> bool
        ensures { result ≡ spec.is_joined last self.now }
    {
        let next = self.symbol();
        if is_punctuation(last) && is_punctuation(next) {
            return self.is_glued();
        }
        opens(last)
            || closes(next)
            || (last == 0 && opens(next))
            || last == b':'
            || matches!(next, b',' | b':')
    }

    #[inline(always)]
    #[tactic(auto, unfolding(crate::specs::Extents::has_blank))]
    fn has_blank(&self, extent: Extent, last: u8) -> bool
        ensures { result ≡ spec.has_blank extent last self.now }
    {
        match extent {
            Extent::Tree => !self.is_joined(last),
            Extent::Group | Extent::Value | Extent::Item | Extent::Macro => true,
        }
    }

    #[inline(always)]
    #[tactic(auto, unfolding(crate::specs::Extents::more))]
    fn push_text(
        &self,
        keeps_text: bool,
        extent: Extent,
        last: u8,
        text: &mut String,
    ) -> Result<(), AllocError>
        ensures { OnOk result (string_bytes text.new
            ≡ (if keeps_text then spec.more extent last (string_bytes text.old) self.now
            else string_bytes text.old)) }
    {
        if !keeps_text || self.is_at_doc() {
            return Ok(());
        }
        if text.len() != 0 && self.has_blank(extent, last) {
            text.push(' ')?;
            return push_token(text, self.text());
        }
        push_token(text, self.text())
    }

    /// Takes one token, and tells its symbol.
    #[inline(always)]
    fn bump_symbol(&mut self) -> u8
        ensures value { result ≡ symbol self.old }
        ensures rest { self.new ≡ bumped self.old }
    {
        let symbol = self.symbol();
        self.bump();
        symbol
    }

    /// Whether a token comes next, in so many braces, that leaves one of them open.
    #[inline(always)]
    fn is_inside(&self, braces: usize) -> bool
        ensures { result ≡ (not (braces == 0) &&
            (not (is_empty self.now) && not (braces == 1 && symbol self.now == 125))) }
    {
        if braces == 0 || self.is_empty() {
            return false;
        }
        !closes_all(braces, self.symbol())
    }

    /// Passes over what stands in braces, up to the one that closes the outermost of them.
    #[inline(never)]
    fn pass_inside(&mut self, nest: &mut Nest)
        requires braces { nest.old.braces + length self.old.left < 2 ^ 64 }
        requires inner { nest.old.inner + length self.old.left < 2 ^ 64 }
        ensures passed { spec.LeadsOn self.old.past self.old.left nest.old
            self.new.past self.new.left nest.new }
        ensures unended { self.new.unended ≡ self.old.unended }
        ensures edition { self.new.edition ≡ self.old.edition }
    {
        let Some(token) = &self.next else {
            return;
        };
        if !self.is_inside(nest.braces) {
            return;
        }
        self.nest_inside(nest);
        self.past = token.end();
        pass_shortly(&mut self.lexer, nest);
        pass_braced(
            &mut self.lexer,
            &mut self.last,
            &mut self.next,
            &mut self.past,
            nest,
        );
    }

    /// Takes what stands in braces, up to the one that closes the outermost of them.
    #[inline(never)]
    fn take_inside(
        &mut self,
        keeps_text: bool,
        extent: Extent,
        nest: &mut Nest,
        last: &mut u8,
        text: &mut String,
    ) -> Result<(), AllocError>
        requires braces { nest.old.braces + length self.old.left < 2 ^ 64 }
        requires inner { nest.old.inner + length self.old.left < 2 ^ 64 }
        ensures same { OnOk result
            ((opened : Option Tokens)
            → spec.clipped_excerpt keeps_text
            (spec.taking extent (string_bytes text.new) last.new opened nest.new self.new)
            ≡ spec.clipped_excerpt keeps_text
            (spec.taking extent (string_bytes text.old) last.old opened nest.old self.old)) }
        ensures text { OnOk result (spec.kept_text keeps_text (string_bytes text.old)
            ≡ string_bytes text.old
            → spec.kept_text keeps_text (string_bytes text.new) ≡ string_bytes text.new) }
        ensures left { OnOk result (length self.new.left ≤ length self.old.left) }
        ensures braces { OnOk result
            (nest.new.braces + length self.new.left ≤ nest.old.braces + length self.old.left) }
        ensures inner { OnOk result
            (nest.new.inner + length self.new.left ≤ nest.old.inner + length self.old.left) }
        ensures others { OnOk result (nest.new.others ≡ nest.old.others) }
        ensures angles { OnOk result (nest.new.angles ≡ nest.old.angles) }
    {
        if !keeps_text {
            self.pass_inside(nest);
            return Ok(());
        }
        'tokens: while self.is_inside(nest.braces) {
            self.nest_inside(nest);
            self.push_text(keeps_text, extent, *last, text)?;
            *last = self.bump_symbol();
        }
        Ok(())
    }

    #[tactic(auto, unfolding(crate::specs::Extents::excerpt_behind), using(crate::proofs::UnkeptTexts::clipped_stop))]
    fn take_excerpt(
        &mut self,
        alloc: Global,
        keeps_text: bool,
        before: Before,
        extent: Extent,
    ) -> Result<Excerpt<'t>, AllocError>
        ensures { Gives spec.excerpt_view
            (spec.clipped_excerpt keeps_text (spec.excerpt_behind before extent self.old)) result self.new }
    {
        // That brackets can be counted is known of a cursor that was looked into.
        let _ = &self.next;
        let mut text = String::new(alloc);
        let mut last = 0;
        let mut opened = None;
        let mut nest = Nest::flat_behind(before);
        'tokens: while !self.stops(extent, &nest) {
            self.note_opened(nest, &mut opened);
            let is_call = is_mark(nest.before);
            self.nest_behind(&mut nest);
            self.push_text(keeps_text, extent, last, &mut text)?;
            if self.ends(extent, is_call, nest) {
                let block = self.block_at(opened);
                self.bump();
                let is_ended = nest.is_whole();
                return Ok(Excerpt {
                    text,
                    is_ended,
                    block,
                });
            }
            last = self.bump_symbol();
            if nest.braces != 0 {
                self.take_inside(keeps_text, extent, &mut nest, &mut last, &mut text)?;
            }
        }
        Ok(Excerpt {
            text,
            is_ended: false,
            block: None,
        })
    }

    fn take_text(&mut self, alloc: Global, extent: Extent) -> Result<String, AllocError>
        ensures { Gives string_bytes (spec.text_taken extent self.old) result self.new }
    {
        let excerpt = self.take_excerpt(alloc, true, Before::End, extent)?;
        Ok(excerpt.text)
    }

    /// Takes a token, or what stands in brackets, and gives the texts of its tokens. White space and comments between
    /// them do not count, but for what stands between two marks that are not joined, as in `- >`.
    pub fn tree_text(&mut self, alloc: Global) -> Result<String, AllocError>
        ensures { Gives string_bytes (spec.tree_text self.old) result self.new }
    {
        self.take_text(alloc, Extent::Tree)
    }

    /// Takes a token, or what stands in brackets, and gives the texts of its tokens with a blank between each two, or
    /// an empty text where none is kept.
    pub fn tree_body(&mut self, alloc: Global, keeps_text: bool) -> Result<Excerpt<'t>, AllocError>
        ensures { Gives spec.excerpt_view (spec.clipped_excerpt keeps_text (spec.tree_body self.old))
            result self.new }
    {
        self.take_excerpt(alloc, keeps_text, Before::End, Extent::Group)
    }

    /// Takes what is left of an item that ends with a semicolon, and gives the texts of its tokens with a blank between
    /// each two, or an empty text where none is kept.
    ///
    /// Without one it ends before a `}` that closes what is around, and before what can only begin an item.
    pub fn value_rest(&mut self, alloc: Global, keeps_text: bool) -> Result<Excerpt<'t>, AllocError>
        ensures { Gives spec.excerpt_view (spec.clipped_excerpt keeps_text (spec.value_rest self.old))
            result self.new }
    {
        self.take_excerpt(alloc, keeps_text, Before::End, Extent::Value)
    }

    /// The same of an item that ends with a semicolon, or with a block. The braces of a macro call are no block, and in
    /// angle brackets one that `>` or `,` follows is none of the item's.
    pub fn item_rest(&mut self, alloc: Global, keeps_text: bool) -> Result<Excerpt<'t>, AllocError>
        ensures { Gives spec.excerpt_view (spec.clipped_excerpt keeps_text (spec.item_rest self.old))
            result self.new }
    {
        self.take_excerpt(alloc, keeps_text, Before::End, Extent::Item)
    }

    /// The same behind the word `impl`. The type or the trait that comes next may begin with `!` or `impl`.
    pub fn impl_rest(&mut self, alloc: Global, keeps_text: bool) -> Result<Excerpt<'t>, AllocError>
        ensures { Gives spec.excerpt_view (spec.clipped_excerpt keeps_text (spec.impl_rest self.old))
            result self.new }
    {
        self.take_excerpt(alloc, keeps_text, Before::Other, Extent::Item)
    }

    /// The same of a macro with parameters, in whose brackets any tokens may stand.
    pub fn macro_rest(&mut self, alloc: Global, keeps_text: bool) -> Result<Excerpt<'t>, AllocError>
        ensures { Gives spec.excerpt_view (spec.clipped_excerpt keeps_text (spec.macro_rest self.old))
            result self.new }
    {
        self.take_excerpt(alloc, keeps_text, Before::Mark, Extent::Macro)
    }
}

/// Whether a symbol closes the last of so many braces.
#[inline(always)]
fn closes_all(braces: usize, symbol: u8) -> bool
    ensures { result ≡ (braces == 1 && symbol == 125) }
{
    braces == 1 && symbol == b'}'
}

/// Passes over tokens in braces up to the brace that closes the outermost of them, if a short path leads there.
#[inline(always)]
fn pass_shortly(lexer: &mut Lexer<'_>, nest: &mut Nest)
    requires { (nest.old.braces == 0) ≡ false }
    ensures passed { (past : ℕ) → spec.LeadsOn past (filter is_significant lexer.old) nest.old
        past (filter is_significant lexer.new) nest.new }
    ensures some { (nest.new.braces == 0) ≡ false }
    ensures last { (last : Option ℕ) → last_unended last lexer.new ≡ last_unended last lexer.old }
{
    let depth = Depth {
        braces: nest.braces,
        inner: nest.inner,
        is_torn: nest.is_torn,
    };
    let outer = match lexer.pass_braces(depth) {
        Some(outer) => outer,
        None => return,
    };
    nest.braces = outer.braces;
    nest.inner = outer.inner;
    nest.is_torn = outer.is_torn;
}

/// Passes over tokens in braces up to the brace that closes the outermost of them, which is put down as the next.
#[inline(always)]
fn pass_braced<'t>(
    lexer: &mut Lexer<'t>,
    last: &mut Option<usize>,
    next: &mut Option<Token<'t>>,
    past: &mut usize,
    nest: &mut Nest,
)
    requires some { (nest.old.braces == 0) ≡ false }
    requires braces { nest.old.braces + length (filter is_significant lexer.old) < 2 ^ 64 }
    requires inner { nest.old.inner + length (filter is_significant lexer.old) < 2 ^ 64 }
    ensures passed { spec.LeadsOn past.old (filter is_significant lexer.old) nest.old
        past.new (left_of next.new lexer.new) nest.new }
    ensures last { last_unended last.new lexer.new ≡ last_unended last.old lexer.old }
{
    'tokens: while let Some(token) = lexer.next() {
        note_last(&token, lexer, last);
        if token.is_significant() {
            let symbol = token.symbol();
            if closes_all(nest.braces, symbol) {
                *next = Some(token);
                return;
            }
            count_inside(symbol, nest);
            *past = token.end();
        }
    }
    *next = None;
}

/// Adds the text of a token. Most are of one byte.
#[inline(always)]
fn push_token(text: &mut String, token: &str) -> Result<(), AllocError>
    ensures { OnOk result (string_bytes text.new ≡ string_bytes text.old ++ token.now) }
{
    match token.as_bytes() {
        [byte] if *byte < 128 => text.push(*byte as char),
        _ => text.push_str(token),
    }
}

fn opens(symbol: u8) -> bool
    ensures { result ≡ spec.is_opening_byte symbol }
{
    matches!(symbol, b'(' | b'[' | b'{')
}

fn closes(symbol: u8) -> bool
    ensures { result ≡ spec.is_closing_byte symbol }
{
    matches!(symbol, b')' | b']' | b'}')
}

/// Whether a symbol is no bracket.
fn is_punctuation(symbol: u8) -> bool
    ensures { result ≡ spec.is_mark_symbol symbol }
{
    symbol != 0 && !opens(symbol) && !closes(symbol)
}
