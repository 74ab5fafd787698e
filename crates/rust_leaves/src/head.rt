//! The words that begin an item.

ghost use Rattle.std.specs.Prelude.{◌≡◌, bytes_eq, codes, if◌then◌else◌};
ghost use Rattle.rust_cursor.specs.Grammar.{reads};
ghost use Rattle.rust_cursor.specs.Looks.{at_identifier, sees, symbol_is, then_seen};
ghost use Rattle.rust_cursor.specs.Words.{word};
ghost use Rattle.rust_leaves.specs.Heads as spec;
ghost use Rattle.rust_leaves.specs.Inner as inner;

use crate::modifiers::pass_abi;
use hir_input::ast::PlainKind;
use rust_cursor::{Cursor, is_among};
use rust_paths::{has_name, is_segment};

/// What kind of item the words begin that were taken.
#[derive(Clone, Copy)]
pub enum Head {
    Const,
    ExternBlock,
    ExternCrate,
    Impl,
    MacroRules,
    Module,
    Struct,
    Use,
    /// One that differs from others in nothing but the kind.
    Plain(PlainKind),
    /// No word of an item: it may be a macro call.
    Other,
}

/// The kind of item, if the test holds.
fn head_if(test: bool, head: Head) -> Head
    ensures { result ≡ (if test then head else Head.Other) }
{
    if test { head } else { Head::Other }
}

/// Whether `{` comes next, maybe behind the name of an interface.
#[tactic(auto, unfolding(crate::specs::Heads::abi))]
fn is_at_block(cursor: &Cursor<'_>) -> bool
    ensures { result ≡ sees (spec.behind_abi (symbol_is 123)) cursor.now }
{
    let mut ahead = cursor.look_ahead();
    pass_abi(&mut ahead);
    ahead.symbol() == b'{'
}

/// What `extern` begins with this behind it.
fn extern_head(behind: &Cursor<'_>) -> Head
    ensures { result ≡ (if bytes_eq (word behind.now) (codes "crate") then Head.ExternCrate
        else (if sees (spec.behind_abi (symbol_is 123)) behind.now then Head.ExternBlock else Head.Other)) }
{
    if behind.word() == "crate" {
        return Head::ExternCrate;
    }
    head_if(is_at_block(behind), Head::ExternBlock)
}

/// Whether `!` and a name come next.
fn is_at_definition(cursor: &Cursor<'_>) -> bool
    ensures { result ≡ sees (then_seen (symbol_is 33) 1 at_identifier) cursor.now }
{
    cursor.symbol() == b'!' && cursor.second().is_at_identifier()
}

/// What kind of item the next words begin.
#[tactic(auto, unfolding(crate::specs::Heads::head))]
pub(crate) fn head_at(cursor: &Cursor<'_>) -> Head
    ensures { result ≡ (reads spec.head cursor.now).0 }
{
    match cursor.word() {
        "use" => Head::Use,
        "fn" => Head::Plain(PlainKind::Fn),
        "impl" => Head::Impl,
        "trait" => Head::Plain(PlainKind::Trait),
        "struct" => Head::Struct,
        "enum" => Head::Plain(PlainKind::Enum),
        "const" => Head::Const,
        "static" => Head::Plain(PlainKind::Static),
        "type" => Head::Plain(PlainKind::TypeAlias),
        "mod" => Head::Module,
        "macro" => Head::Plain(PlainKind::MacroDef),
        "union" => head_if(has_name(&cursor.second()), Head::Plain(PlainKind::Union)),
        "macro_rules" => head_if(is_at_definition(&cursor.second()), Head::MacroRules),
        "extern" => extern_head(&cursor.second()),
        _ => Head::Other,
    }
}

fn pass_head(head: Head, cursor: &mut Cursor<'_>)
    ensures { cursor.new ≡ inner.behind_head head cursor.old }
{
    match head {
        Head::Other => {}
        Head::ExternCrate | Head::MacroRules => {
            cursor.bump();
            cursor.bump();
        }
        Head::ExternBlock => {
            cursor.bump();
            pass_abi(cursor);
        }
        _ => cursor.bump(),
    }
}

/// Takes the words that begin an item, if they come next.
#[tactic(auto, using(crate::proofs::Heads::head_whole))]
pub(crate) fn take_head(cursor: &mut Cursor<'_>) -> Head
    ensures { reads spec.head cursor.old ≡ (result, cursor.new) }
{
    let head = head_at(cursor);
    pass_head(head, cursor);
    head
}

/// The words that may begin an item.
const FIRST_WORDS: [&str; 15] = [
    "pub", "fn", "use", "mod", "struct", "enum", "trait", "impl", "type", "static", "const",
    "extern", "unsafe", "async", "macro",
];

#[tactic(auto, unfolding(crate::specs::Heads::is_first_word))]
fn is_first_word(word: &str) -> bool
    ensures { result ≡ spec.is_first_word word.now }
{
    is_among(word, &FIRST_WORDS)
}

fn is_union(cursor: &Cursor<'_>) -> bool
    ensures { result ≡ sees spec.union_words cursor.now }
{
    cursor.word() == "union" && has_name(&cursor.second())
}

/// Whether a word comes next that can be a segment of a path.
fn is_path_word(cursor: &Cursor<'_>) -> bool
    ensures { result ≡ sees spec.segment_word cursor.now }
{
    cursor.is_at_identifier() && is_segment(cursor)
}

/// Whether such a word comes next with `::` behind it.
fn begins_path(cursor: &Cursor<'_>) -> bool
    ensures { result ≡ sees spec.begins_path cursor.now }
{
    is_path_word(cursor) && cursor.second().is_pair(b':', b':')
}

/// Passes over words of a path with `::` behind them.
#[tactic(auto, unfolding(crate::specs::Heads::behind_segments), using(crate::proofs::Steps::segment_turns))]
fn pass_segments(cursor: &mut Cursor<'_>)
    ensures { cursor.new ≡ spec.behind_segments cursor.old }
{
    let most = Cursor::most_turns();
    for _turn in 0..most {
        if !begins_path(cursor) {
            break;
        }
        cursor.bump();
        cursor.bump();
        cursor.bump();
    }
}

/// Whether the `!` of a macro call comes next.
#[tactic(auto, unfolding(crate::specs::Heads::is_called))]
pub(crate) fn is_called(cursor: &Cursor<'_>) -> bool
    ensures { result ≡ sees spec.is_called cursor.now }
{
    cursor.symbol() == b'!' && cursor.second().is_at_open()
}

fn is_called_here(cursor: &Cursor<'_>) -> bool
    ensures { result ≡ spec.is_called_here cursor.now }
{
    let mut behind = cursor.look_ahead();
    pass_segments(&mut behind);
    if !is_path_word(&behind) {
        return false;
    }
    behind.bump();
    is_called(&behind)
}

/// Whether a macro call comes next that is an item. In its path no generic arguments stand: none is looked for behind a
/// `<`.
#[tactic(auto, unfolding(crate::specs::Heads::begins_call))]
pub(crate) fn begins_call(cursor: &Cursor<'_>) -> bool
    ensures { result ≡ spec.begins_call cursor.now }
{
    let mut ahead = cursor.look_ahead();
    ahead.eat(b'$');
    ahead.eat_colons();
    is_called_here(&ahead)
}

/// Whether a word comes next that may begin an item; in front of `::` it is a segment of a path.
fn is_at_first(cursor: &Cursor<'_>) -> bool
    ensures { result ≡ spec.is_at_first cursor.now }
{
    if begins_path(cursor) {
        return false;
    }
    is_first_word(cursor.word()) || is_union(cursor) || cursor.begins_item()
}

#[tactic(auto, unfolding(crate::specs::Heads::may_begin))]
fn may_begin(cursor: &Cursor<'_>) -> bool
    ensures { result ≡ spec.may_begin cursor.now }
{
    if cursor.symbol() == b'#' || cursor.is_at_doc() {
        return true;
    }
    if is_at_first(cursor) {
        return true;
    }
    is_called_here(cursor)
}

#[tactic(auto, unfolding(crate::specs::Heads::is_behind_others))]
fn is_behind_others(cursor: &Cursor<'_>) -> bool
    ensures { result ≡ spec.is_behind_others cursor.now }
{
    cursor.is_at_end() || may_begin(cursor)
}

/// Passes over a token or what stands in brackets, or over a path up to its last segment, so that each path is looked
/// through once.
fn pass_other(cursor: &mut Cursor<'_>)
    ensures { cursor.new ≡ spec.behind_other cursor.old }
{
    if begins_path(cursor) {
        pass_segments(cursor);
    } else {
        cursor.pass_tree();
    }
}

/// Passes over tokens that begin no item, up to where one may begin or a bracket closes.
#[tactic(auto, unfolding(crate::specs::Heads::behind_others), using(crate::proofs::Steps::other_turns))]
pub fn pass_others(cursor: &mut Cursor<'_>)
    ensures { cursor.new ≡ spec.behind_others cursor.old }
{
    if cursor.is_at_end() {
        return;
    }
    cursor.pass_tree();
    let most = Cursor::most_turns();
    for _turn in 0..most {
        if is_behind_others(cursor) {
            break;
        }
        pass_other(cursor);
    }
}
