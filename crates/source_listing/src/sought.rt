//! Paths of names that are looked for, as they are written.
ghost use Rattle.std.specs.Prelude.{◌≡◌, ◌==◌, IfOk, map, option_map, string_bytes};
ghost use Rattle.std.specs.List.{slice_split};
ghost use Rattle.rust_paths.specs.Names.{is_path_keyword};
ghost use Rattle.source_listing.specs.Sought as spec;
ghost use Rattle.source_listing.specs.Views.{sought_view};
ghost use Rattle.source_listing.specs.Inner.{split_view};
ghost use Rattle.source_listing.specs.Search.{joined_scope};

use crate::paths::push_segment;
use rust_lexer::is_identifier;
use std::alloc::{AllocError, Global};

/// A path of names that is looked for.
#[derive(Debug)]
pub struct SoughtPath {
    /// Its names with two colons before each, as `::a::b`.
    pub path: String,
    /// Whether it may begin in any module, and not at the top alone.
    pub is_anywhere: bool,
}

// (Written out: what is derived is proved anew, field by field, in each crate that drops one.)
impl Drop for SoughtPath {
    fn drop(self) {
        let SoughtPath {
            path: _,
            is_anywhere: _,
        } = self;
    }
}

/// What stands in a text behind another.
pub(crate) fn text_behind<'a>(front: &str, text: &'a str) -> Option<&'a str>
    ensures { option_map (λ rest. rest.now) result ≡ spec.text_behind front.now text.now }
{
    text.strip_prefix(front)
}

/// Names with two colons between each two, of such with two before each.
pub fn joined_scope(scope: &str) -> &str
    ensures { result.now ≡ joined_scope scope.now }
{
    match text_behind("::", scope) {
        Some(names) => names,
        None => scope,
    }
}

/// A word without `r#`.
pub(crate) fn without_raw(word: &str) -> &str
    ensures { result.now ≡ spec.without_raw word.now }
{
    match text_behind("r#", word) {
        Some(name) => name,
        None => word,
    }
}

/// Whether nothing can have this name.
#[tactic(auto, unfolding(rust_paths::specs::Names::is_path_keyword))]
pub(crate) fn is_path_keyword(name: &str) -> bool
    ensures { result ≡ is_path_keyword name.now }
{
    matches!(name, "crate" | "self" | "super" | "Self")
}

/// The name that a word is.
fn sought_name(word: &str) -> Option<&str>
    ensures { option_map (λ name. name.now) result ≡ spec.sought_name word.now }
{
    let name = without_raw(word);
    if !is_identifier(name) || is_path_keyword(name) {
        return None;
    }
    Some(name)
}

/// The name that a word is, if there is nothing in the gap behind it.
fn name_before<'a>(gap: &str, word: &'a str) -> Option<&'a str>
    ensures { option_map (λ name. name.now) result ≡ spec.name_before gap.now word.now }
{
    if !gap.is_empty() {
        return None;
    }
    sought_name(word)
}

/// What stands between the colons of a text.
fn words(alloc: Global, text: &str) -> Result<Vec<&str>, AllocError>
    ensures { IfOk result (λ words. map (λ w. w.now) words.items
        ≡ slice_split (λ b. b == 58) text.now) }
{
    let mut words = Vec::new(alloc);
    for word in text.split(':') {
        words.push(word)?;
    }
    Ok(words)
}

/// Names with two colons before each, and a word behind them.
#[derive(Drop)]
pub(crate) struct Split<'a> {
    pub(crate) scope: String,
    pub(crate) last: &'a str,
}

/// The names that stand between colons, but for the last word.
#[tactic(auto, using(crate::proofs::NamePaths::read_first))]
fn split_names<'a>(alloc: Global, words: &[&'a str]) -> Result<Option<Split<'a>>, AllocError>
    ensures { IfOk result (λ split. option_map split_view split
        ≡ spec.split_names (map (λ w. w.now) words.now)) }
{
    let mut scope = String::new(alloc);
    let mut left = words;
    while let [word, gap, rest @ ..] = left {
        let Some(name) = name_before(gap, word) else {
            return Ok(None);
        };
        push_segment(name, &mut scope)?;
        left = rest;
    }
    let [last] = left else {
        return Ok(None);
    };
    Ok(Some(Split { scope, last }))
}

/// The names of a text, but for the last word.
pub(crate) fn split_text(alloc: Global, text: &str) -> Result<Option<Split<'_>>, AllocError>
    ensures { IfOk result (λ split. option_map split_view split ≡ spec.split_text text.now) }
{
    let words = words(alloc, text)?;
    split_names(alloc, &words)
}

/// The path of names, if the last word is one.
fn whole_path(split: Split<'_>) -> Result<Option<String>, AllocError>
    ensures { IfOk result (λ path. option_map string_bytes path
        ≡ spec.whole_path (split_view split.entry)) }
{
    let Split { scope, last } = split;
    let mut path = scope;
    let Some(name) = sought_name(last) else {
        return Ok(None);
    };
    push_segment(name, &mut path)?;
    Ok(Some(path))
}

/// What stands behind `::` or `crate::`.
pub(crate) fn behind_top(text: &str) -> Option<&str>
    ensures { option_map (λ names. names.now) result ≡ spec.behind_top text.now }
{
    match text_behind("::", text) {
        Some(names) => Some(names),
        None => text_behind("crate::", text),
    }
}

fn sought_from(
    alloc: Global,
    is_anywhere: bool,
    names: &str,
) -> Result<Option<SoughtPath>, AllocError>
    ensures { let path_is = option_map (spec.sought_from is_anywhere)
        (spec.sought_names names.now) in
        IfOk result (λ sought. option_map sought_view sought ≡ path_is) }
{
    let Some(split) = split_text(alloc, names)? else {
        return Ok(None);
    };
    let Some(path) = whole_path(split)? else {
        return Ok(None);
    };
    Ok(Some(SoughtPath { path, is_anywhere }))
}

/// The path that a text is: names, also with `r#`, with two colons between each two, from the top on behind `::` or
/// `crate::`, and else anywhere. `crate`, `self`, `super` and `Self` are no names.
///
/// # Errors
///
/// Only if memory runs out.
pub fn sought_path(alloc: Global, text: &str) -> Result<Option<SoughtPath>, AllocError>
    ensures { IfOk result (λ sought. option_map sought_view sought ≡ spec.sought_path text.now) }
{
    match behind_top(text) {
        Some(names) => sought_from(alloc, false, names),
        None => sought_from(alloc, true, text),
    }
}
