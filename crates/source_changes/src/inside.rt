//! Which bodies of functions are holes: others see the same, whatever stands in them.

ghost use Rattle.std.specs.Prelude.{◌≡◌, false, map};
ghost use Rattle.std.specs.List.{list_any};
ghost use Rattle.rust_cursor.specs.Words.{word_by};
ghost use Rattle.rust_lexer.specs.Tokens.{tokens};
ghost use Rattle.source_changes.specs.Bodies as spec;

use memchr::memmem;
use rust_items::TextRange;
use rust_lexer::{Lexer, Token, TokenKind};
use source_rows::text_at;

/// A body of one of these functions runs while others are compiled.
const MACRO_WORDS: [&str; 3] = ["proc_macro", "proc_macro_derive", "proc_macro_attribute"];

/// Linkers see what has one of these words, whatever its visibility.
const LINKED_WORDS: [&str; 2] = ["no_mangle", "export_name"];

/// With one of these words something in a body reaches out of it.
const OUTER_WORDS: [&str; 6] = [
    "impl",
    "macro_export",
    "no_mangle",
    "export_name",
    "extern",
    "global_asm",
];

fn word<'t>(token: &Token<'t>) -> &'t str
    ensures { result.now ≡ word_by token.now.kind token.now.text }
{
    match token.kind() {
        TokenKind::Ident => token.text(),
        _ => "",
    }
}

/// Whether a word may be a token of a text: its bytes stand there. (Most texts are told by that alone.)
#[tactic(auto, using(crate::proofs::Words::absent_word))]
fn may_have_word(text: &str, word: &str) -> bool
    ensures { result ≡ false → spec.has_word (tokens text.now) word.now ≡ false }
{
    memmem::find(text.as_bytes(), word.as_bytes()).is_some()
}

fn has_word_token(text: &str, wanted: &str) -> bool
    ensures { result ≡ spec.has_word (tokens text.now) wanted.now }
{
    let mut lexer = Lexer::new(text);
    'tokens: while let Some(token) = lexer.next() {
        if word(&token) == wanted {
            return true;
        }
    }
    false
}

/// Whether a word is a token of a text.
fn has_word(text: &str, word: &str) -> bool
    ensures { result ≡ spec.has_word (tokens text.now) word.now }
{
    may_have_word(text, word) && has_word_token(text, word)
}

fn has_any(text: &str, words: &[&str]) -> bool
    ensures { result ≡ list_any (λ w. spec.has_word (tokens text.now) w.now) words.now }
{
    words.iter().any(|word| has_word(text, word))
}

fn has_const_fn_tokens(text: &str) -> bool
    ensures { result ≡ spec.has_const_fn false (tokens text.now) }
{
    let mut has_const = false;
    let mut lexer = Lexer::new(text);
    'tokens: while let Some(token) = lexer.next() {
        let word = word(&token);
        if has_const && word == "fn" {
            return true;
        }
        has_const = word == "const" || has_const && token.symbol() == 0;
    }
    false
}

/// Whether `const` comes, and `fn` behind it with nothing but words and literals between them.
fn has_const_fn(text: &str) -> bool
    ensures { result ≡ spec.has_const_fn false (tokens text.now) }
{
    if !may_have_word(text, "const") {
        return false;
    }
    has_const_fn_tokens(text)
}

/// Whether what stands in front of a function's body makes others see the body.
fn is_run_early(front: &str) -> bool
    ensures { result ≡ spec.is_run_early (tokens front.now) }
{
    has_const_fn(front) || has_any(front, &MACRO_WORDS)
}

/// Whether a function with this in front of its body, and this in its braces, is neither a `const fn` nor a macro, and
/// no word in them reaches out.
fn is_unseen(front: &str, inside: &str) -> bool
    ensures { result ≡ spec.is_unseen (tokens front.now) (tokens inside.now) }
{
    !is_run_early(front) && !has_any(inside, &OUTER_WORDS)
}

/// Whether linkers see an item, or something in a part of it reaches out of it.
pub(crate) fn is_seen_beyond(item: &str, inside: &str) -> bool
    ensures { result ≡ spec.is_seen_beyond (tokens item.now) (tokens inside.now) }
{
    has_any(item, &LINKED_WORDS) || has_any(inside, &OUTER_WORDS)
}

/// Whether the braces of a function, which stands there in a text, are a hole.
fn is_hole(text: &str, item: TextRange, body: TextRange) -> bool
    ensures { result ≡ spec.is_hole text.now item body }
{
    let range = TextRange {
        start: item.start,
        end: body.start,
    };
    let front = text_at(text, range);
    let inside = text_at(text, body);
    is_unseen(front, inside)
}

/// The braces of a function, if they are a hole.
pub(crate) fn hole_of(text: &str, item: TextRange, body: Option<TextRange>) -> Option<TextRange>
    ensures { result ≡ spec.hole_of text.now item body }
{
    let body = body?;
    if is_hole(text, item, body) {
        Some(body)
    } else {
        None
    }
}
