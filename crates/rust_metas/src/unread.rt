//! Attributes that are passed over unread.

ghost use Rattle.std.specs.Prelude.{◌≡◌, IsTrue, if◌then◌else◌};
ghost use Rattle.hir_input.specs.Name as names;
ghost use Rattle.rust_metas.specs.Attributes.{past_mark};
ghost use Rattle.rust_metas.specs.Unread as spec;

use crate::attribute::pass_mark;
use crate::literal::{is_ended, is_literal};
use rust_cursor::Cursor;
use rust_lexer::DocStyle;
use rust_paths::has_name;

fn is_name(word: &str) -> bool
    ensures { result ≡ names.is_name word.now }
{
    !word.is_empty() && !word.as_bytes().contains(&b'\n')
}

/// Whether a name comes next, not as `r#name`, with which no condition begins.
#[tactic(auto, unfolding(crate::specs::Unread::is_plain_name))]
fn is_plain_name(cursor: &Cursor<'_>) -> bool
    ensures { result ≡ spec.is_plain_name cursor.now }
{
    let word = cursor.word();
    if matches!(word, "" | "cfg" | "cfg_attr" | "unsafe") {
        return false;
    }
    has_name(cursor) && is_name(word)
}

/// Passes over what stands behind an attribute's name, and tells whether that is `=` and a literal, round brackets, or
/// nothing.
#[tactic(auto, unfolding(crate::specs::Unread::plain_input))]
fn pass_input(cursor: &mut Cursor<'_>) -> bool
    ensures { spec.plain_input cursor.old ≡ (result, cursor.new) }
{
    if cursor.symbol() == b'=' {
        cursor.bump();
        let is_value = is_literal(cursor);
        cursor.bump();
        return is_value && is_ended(cursor);
    }
    if cursor.is_at_open() {
        let is_round = cursor.symbol() == b'(';
        cursor.pass_tree();
        return is_round;
    }
    cursor.symbol() == b']'
}

/// Passes over an attribute's brackets, and tells whether they plainly tell no condition.
#[tactic(auto, unfolding(crate::specs::Unread::plain_bracketed))]
fn pass_bracketed(cursor: &mut Cursor<'_>) -> bool
    ensures told { result ≡ (spec.plain_bracketed cursor.old).0 }
    ensures passed { IsTrue result → cursor.new ≡ (spec.plain_bracketed cursor.old).1 }
{
    cursor.bump();
    if !is_plain_name(cursor) {
        return false;
    }
    cursor.bump();
    if !pass_input(cursor) {
        return false;
    }
    if cursor.symbol() != b']' {
        return false;
    }
    cursor.bump();
    true
}

/// Passes over an attribute that plainly tells no condition. Another is left where it is.
pub(crate) fn pass_unread(cursor: &mut Cursor<'_>, style: DocStyle) -> bool
    ensures told { result ≡ spec.is_unread style cursor.old }
    ensures passed { cursor.new
        ≡ (if result then spec.behind_unread style cursor.old else cursor.old) }
{
    let mut ahead = cursor.look_ahead();
    pass_mark(&mut ahead, style);
    if !pass_bracketed(&mut ahead) {
        return false;
    }
    *cursor = ahead;
    true
}
