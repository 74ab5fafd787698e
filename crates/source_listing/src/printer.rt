//! The printer of a file's lines.

ghost use Rattle.std.specs.Prelude.{◌≡◌, IsTrue};
ghost use Rattle.std.specs.List.{list_all};
ghost use Rattle.rust_paths.specs.Names.{may_be_keyword};

use crate::place_finder::PlaceFinder;
use hir_input::{Edition, Name};
use rust_paths::may_be_keyword;

/// What the lines of a file are made from.
#[derive(Drop)]
pub(crate) struct Printer<'a> {
    pub(crate) path: &'a str,
    pub(crate) edition: &'a Edition,
    pub(crate) finder: PlaceFinder<'a>,
    /// Whether a quick test tells the reserved words of the edition.
    pub(crate) has_keywords: bool,
    ghost words: { IsTrue has_keywords → IsTrue (list_all may_be_keyword edition.now.reserved.items) },
}

/// Whether each of some words may be a keyword of Rust.
pub(crate) fn are_keywords(words: &[Name]) -> bool
    ensures { result ≡ list_all may_be_keyword words.now }
{
    words.iter().all(|word| may_be_keyword(word.text()))
}
