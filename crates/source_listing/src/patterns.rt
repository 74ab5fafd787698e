//! What is looked for, as it is written: names, of which the last may be a glob.
ghost use Rattle.std.specs.Prelude.{◌≡◌, ◌++◌, IfOk, OnOk, option_map, string_bytes};
ghost use Rattle.source_listing.specs.Inner.{split_view};
ghost use Rattle.source_listing.specs.Patterns as spec;
ghost use Rattle.source_listing.specs.Views.{pattern_view};

use crate::sought::{Split, behind_top, is_path_keyword, split_text, without_raw};
use caseless::default_case_fold_str;
use rust_lexer::is_identifier;
use std::alloc::{AllocError, Global};

/// What is looked for. Where letters of two cases are one, both texts are folded.
#[derive(Debug)]
pub struct Pattern {
    /// The names before the last one, with two colons before each, as `::a::b`.
    pub scope: String,
    /// The glob of the last name.
    pub name: String,
    /// Whether the names may begin in any module, and not at the top alone.
    pub is_anywhere: bool,
}

// (Written out: what is derived is proved anew, field by field, in each crate that drops one.)
impl Drop for Pattern {
    fn drop(self) {
        let Pattern {
            scope: _,
            name: _,
            is_anywhere: _,
        } = self;
    }
}

/// A text as it is compared.
pub(crate) fn compared_text(
    alloc: Global,
    ignores_case: bool,
    text: &str,
) -> Result<String, AllocError>
    ensures { IfOk result (λ t. string_bytes t ≡ spec.as_compared ignores_case text.now) }
{
    if ignores_case {
        return default_case_fold_str(alloc, text);
    }
    String::from_str(alloc, text)
}

/// Adds a character, or a letter for a mark of globs.
fn push_letter_for(c: char, out: &mut String) -> Result<(), AllocError>
    ensures { OnOk result (string_bytes out.new ≡ string_bytes out.old ++ spec.letter_for c) }
{
    if c == '*' || c == '?' {
        return out.push_str("_");
    }
    out.push(c)
}

/// A word with letters for its marks.
fn with_letters(alloc: Global, word: &str) -> Result<String, AllocError>
    ensures { IfOk result (λ text. string_bytes text ≡ spec.with_letters word.now) }
{
    let mut text = String::new(alloc);
    for c in word.chars() {
        push_letter_for(c, &mut text)?;
    }
    Ok(text)
}

/// The glob of a name that a word is.
fn name_glob(alloc: Global, word: &str) -> Result<Option<&str>, AllocError>
    ensures { IfOk result (λ glob. option_map (λ g. g.now) glob ≡ spec.name_glob word.now) }
{
    let glob = without_raw(word);
    let name = with_letters(alloc, glob)?;
    if !is_identifier(&name) || is_path_keyword(&name) {
        return Ok(None);
    }
    Ok(Some(glob))
}

fn split_pattern(
    alloc: Global,
    ignores_case: bool,
    is_anywhere: bool,
    split: &Split<'_>,
) -> Result<Option<Pattern>, AllocError>
    ensures { let pattern = spec.split_pattern ignores_case is_anywhere (split_view split.now) in
        IfOk result (λ p. option_map pattern_view p ≡ pattern) }
{
    let Some(glob) = name_glob(alloc, split.last)? else {
        return Ok(None);
    };
    Ok(Some(Pattern {
        scope: compared_text(alloc, ignores_case, &split.scope)?,
        name: compared_text(alloc, ignores_case, glob)?,
        is_anywhere,
    }))
}

fn pattern_in(
    alloc: Global,
    ignores_case: bool,
    is_anywhere: bool,
    names: &str,
) -> Result<Option<Pattern>, AllocError>
    ensures { let pattern = spec.pattern_in ignores_case is_anywhere names.now in
        IfOk result (λ p. option_map pattern_view p ≡ pattern) }
{
    match split_text(alloc, names)? {
        Some(split) => split_pattern(alloc, ignores_case, is_anywhere, &split),
        None => Ok(None),
    }
}

/// What a text looks for: names, also with `r#`, with two colons between each two, from the top on behind `::` or
/// `crate::`, and else anywhere. In the last name `*` stands for any characters, and `?` for any one. `crate`, `self`,
/// `super` and `Self` are no names.
///
/// # Errors
///
/// Only if memory runs out.
pub fn sought_pattern(
    alloc: Global,
    ignores_case: bool,
    text: &str,
) -> Result<Option<Pattern>, AllocError>
    ensures { IfOk result (λ p. option_map pattern_view p ≡ spec.pattern ignores_case text.now) }
{
    match behind_top(text) {
        Some(names) => pattern_in(alloc, ignores_case, false, names),
        None => pattern_in(alloc, ignores_case, true, text),
    }
}
