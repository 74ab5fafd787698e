//! The bytes that must go of a text for one import to go.
ghost use Rattle.std.specs.Prelude.{◌≡◌, ◌+◌, ◌<◌, ◌≤◌, ◌^◌, None, IfSome, length, option_map};
ghost use Rattle.rust_lexer.specs.Tokens.{tokens};
ghost use Rattle.rust_cursor.specs.Tokens.{end_of};
ghost use Rattle.rust_cursor.specs.Words as words;
ghost use Rattle.source_rows.specs.Labels.{text_at};
ghost use Rattle.source_listing.specs.Views.{placed_trees_view};
ghost use Rattle.source_imports.specs.Removals as spec;

use item_tree::UseTreeIdx;
use rust_lexer::{Lexer, Token, TokenKind};
use rust_paths::TextRange;
use source_listing::UseTrees;
use source_rows::text_at;

/// Where a use tree ends.
#[derive(Clone, Copy)]
struct TreeEnd {
    /// Behind its last token.
    end: usize,
    /// Behind the comma that follows it.
    comma: Option<usize>,
    /// Whether no more trees follow in its list.
    is_last: bool,
}

fn is_open(token: &Token<'_>) -> bool
    ensures { result ≡ words.is_open token.now }
{
    matches!(token.kind(), TokenKind::OpenDelim)
}

fn is_close(token: &Token<'_>) -> bool
    ensures { result ≡ words.is_close token.now }
{
    matches!(token.kind(), TokenKind::CloseDelim)
}

/// Whether a token ends a tree, in so many of its brackets.
fn ends_use_tree(depth: usize, token: &Token<'_>) -> bool
    ensures { result ≡ spec.ends_use_tree depth token.now }
{
    depth == 0 && (token.symbol() == b',' || token.symbol() == b';' || is_close(token))
}

/// In how many brackets what is behind a token stands.
fn depth_past(depth: usize, token: &Token<'_>) -> usize
    requires { depth + 1 < 2 ^ 64 }
    ensures value { result ≡ spec.depth_past depth token.now }
    ensures within { result ≤ depth + 1 }
{
    if is_open(token) {
        return depth + 1;
    }
    if is_close(token) {
        depth.saturating_sub(1)
    } else {
        depth
    }
}

/// Where a token ends, if it counts, and else the place from before.
fn end_past(past: usize, token: &Token<'_>) -> usize
    ensures { result ≡ spec.end_past past token.now }
{
    if token.is_significant() {
        token.end()
    } else {
        past
    }
}

/// Whether no more trees come in a list.
fn ends_tree_list(lexer: &Lexer<'_>) -> bool
    ensures { result ≡ spec.ends_tree_list lexer.now }
{
    let mut left = lexer.copy();
    'tokens: while let Some(token) = left.next() {
        if token.is_significant() {
            return is_close(&token);
        }
    }
    true
}

/// A tree that ends there, and behind it come a token and others.
fn use_tree_ended(past: usize, token: &Token<'_>, lexer: &Lexer<'_>) -> TreeEnd
    ensures { result ≡ spec.use_tree_ended past token.now lexer.now }
{
    if token.symbol() == b',' {
        return TreeEnd {
            end: past,
            comma: Some(token.end()),
            is_last: ends_tree_list(lexer),
        };
    }
    TreeEnd {
        end: past,
        comma: None,
        is_last: true,
    }
}

/// Where the tree ends that a text begins with.
#[tactic(auto, using(crate::proofs::TreeEnds::all_within))]
fn use_tree_end(text: &str) -> TreeEnd
    ensures value { result ≡ spec.use_tree_end 0 0 (tokens text.now) }
    ensures end { result.end ≤ length text.now }
    ensures comma { IfSome result.comma (λ c. c ≤ length text.now) }
{
    let mut depth = 0;
    let mut past = 0;
    let mut lexer = Lexer::new(text);
    'tokens: while let Some(token) = lexer.next() {
        if ends_use_tree(depth, &token) {
            return use_tree_ended(past, &token, &lexer);
        }
        depth = depth_past(depth, &token);
        past = end_past(past, &token);
    }
    TreeEnd {
        end: past,
        comma: None,
        is_last: true,
    }
}

/// The last token of a text that counts.
#[tactic(auto, using(crate::proofs::TreeEnds::all_within))]
fn last_significant(text: &str) -> Option<Token<'_>>
    ensures value { result ≡ spec.last_significant None (tokens text.entry.now) }
    ensures within { IfSome result (λ t. end_of t ≤ length text.entry.now) }
{
    let mut last = None;
    let mut lexer = Lexer::new(text);
    'tokens: while let Some(token) = lexer.next() {
        if token.is_significant() {
            last = Some(token);
        }
    }
    last
}

fn bytes_of(start: usize, end: usize) -> TextRange
    ensures { result ≡ spec.bytes_of start end }
{
    TextRange { start, end }
}

/// The first tree of a list goes with the comma behind it, if others follow.
fn first_removal(start: usize, tree: TreeEnd) -> Option<TextRange>
    requires { IfSome tree.comma (λ c. start + c < 2 ^ 64) }
    ensures { result ≡ spec.first_removal start tree }
{
    if tree.is_last {
        return None;
    }
    let comma = tree.comma?;
    Some(bytes_of(start, start + comma))
}

/// A later one goes with the comma behind it, or else with the one in front of it.
fn later_removal(front: usize, start: usize, tree: TreeEnd) -> TextRange
    requires end { start + tree.end < 2 ^ 64 }
    requires comma { IfSome tree.comma (λ c. start + c < 2 ^ 64) }
    ensures { result ≡ spec.later_removal front start tree.comma tree.end }
{
    match tree.comma {
        Some(comma) => bytes_of(start, start + comma),
        None => bytes_of(front, start + tree.end),
    }
}

/// The bytes that go with a tree of a list, where it is not the only one there.
#[tactic(auto, using(crate::proofs::TreeEnds::part_fits))]
fn own_removal(text: &str, before: usize, start: usize, end: usize) -> Option<TextRange>
    ensures { result ≡ spec.own_removal text.now before start end }
{
    let tree = use_tree_end(text_at(text, bytes_of(start, end)));
    let front = last_significant(text_at(text, bytes_of(before, start)))?;
    match front.symbol() {
        b',' => Some(later_removal(before + front.at(), start, tree)),
        b'{' => first_removal(start, tree),
        _ => None,
    }
}

/// The bytes that go with a use tree: its own; if it is alone, those of the tree that it is in, which is the one before
/// it; and at last the item's.
#[tactic(auto, using(crate::proofs::TreeEnds::removal_own, crate::proofs::TreeEnds::removal_around))]
fn removal(text: &str, trees: UseTrees<'_>, index: UseTreeIdx) -> TextRange
    ensures { result ≡ spec.removal text.now (placed_trees_view trees.entry) index.0 }
{
    let range = trees.place.range;
    let mut left = index.0 as usize;
    while left > 0 {
        let before = trees.start(left - 1);
        if let Some(own) = own_removal(text, before, trees.start(left), range.end) {
            return own;
        }
        left -= 1;
    }
    range
}

/// The same by the use trees of an item that may not be there.
pub(crate) fn removal_of(
    text: &str,
    trees: Option<UseTrees<'_>>,
    index: UseTreeIdx,
) -> Option<TextRange>
    ensures { result ≡ spec.removals text.now (option_map placed_trees_view trees.entry) index.0 }
{
    match trees {
        Some(trees) => Some(removal(text, trees, index)),
        None => None,
    }
}
