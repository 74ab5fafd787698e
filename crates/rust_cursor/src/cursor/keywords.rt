//! Keywords, told by their length and two of their bytes before they are compared.

ghost use Rattle.std.specs.Prelude.{◌≡◌};
ghost use Rattle.rust_cursor.specs.Inner as inner;
ghost use Rattle.rust_cursor.specs.Nests as spec;

use crate::among::{first_byte, has_length, last_byte, middle_byte};

/// The lengths of the words that can begin an item, by their first byte.
static ITEM_FIRST: [u16; 32] = [
    0, 0, 0, 32, 0, 80, 4, 0, 0, 16, 0, 0, 0, 2088, 0, 0, 8, 0, 0, 64, 48, 104, 0, 0, 0, 0, 0, 0,
    0, 0, 0, 0,
];

/// And by their last.
static ITEM_LAST: [u16; 32] = [
    0, 0, 8, 64, 8, 88, 0, 0, 0, 0, 0, 0, 16, 16, 100, 32, 0, 0, 0, 2048, 96, 0, 0, 0, 0, 0, 0, 0,
    0, 0, 0, 0,
];

/// Whether a word may begin an item, by its length and two of its bytes.
#[inline(always)]
pub(crate) fn leads_item(word: &str) -> bool
    ensures { result ≡ inner.leads_item word.now }
{
    has_length(&ITEM_FIRST, first_byte(word), word) && has_length(&ITEM_LAST, last_byte(word), word)
}

/// The lengths of the keywords with which neither a type nor a value ends, by their first byte.
static LEADING_FIRST: [u16; 32] = [
    0, 36, 32, 288, 8, 80, 12, 0, 0, 20, 0, 0, 24, 56, 0, 0, 8, 0, 72, 64, 48, 72, 0, 32, 0, 32, 0,
    0, 0, 0, 0, 0,
];

/// And by the one in their middle.
static LEADING_MIDDLE: [u16; 32] = [
    0, 96, 0, 0, 0, 104, 4, 0, 0, 288, 0, 0, 0, 0, 36, 24, 16, 0, 0, 28, 96, 88, 16, 0, 0, 40, 0,
    0, 0, 0, 0, 0,
];

/// Whether a word may be one of these, by its length and two of its bytes.
#[inline(always)]
fn may_lead_on(word: &str) -> bool
    ensures { result ≡ inner.may_lead_on word.now }
{
    has_length(&LEADING_FIRST, first_byte(word), word)
        && has_length(&LEADING_MIDDLE, middle_byte(word), word)
}

#[inline(never)]
#[tactic(auto, unfolding(crate::specs::Nests::leads_on))]
fn is_leading(word: &str) -> bool
    ensures { result ≡ spec.leads_on word.now }
{
    // The most frequent ones come first.
    matches!(
        word,
        "for"
            | "mut"
            | "where"
            | "const"
            | "impl"
            | "fn"
            | "dyn"
            | "as"
            | "unsafe"
            | "pub"
            | "async"
            | "break"
            | "continue"
            | "else"
            | "enum"
            | "extern"
            | "if"
            | "in"
            | "let"
            | "loop"
            | "match"
            | "mod"
            | "move"
            | "ref"
            | "return"
            | "static"
            | "struct"
            | "trait"
            | "type"
            | "use"
            | "while"
            | "yield"
    )
}

/// Whether neither a type nor a value ends with the word.
#[tactic(auto, using(crate::proofs::Keywords::leads_none))]
pub(crate) fn leads_on(word: &str) -> bool
    ensures { result ≡ spec.leads_on word.now }
{
    // Most words are told by their length and two bytes.
    if !may_lead_on(word) {
        return false;
    }
    is_leading(word)
}
