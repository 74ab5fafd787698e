//! The reserved words of the editions, and the attributes that are left out where nothing else is asked.
use hir_input::{Edition, EditionYear, Name};
use rust_paths::{KEYWORDS, KEYWORDS_SINCE_2018, KEYWORDS_SINCE_2024};
use source_session::USUAL_SKIPPED;
use std::alloc::{AllocError, Global};

fn push_name(alloc: Global, word: &str, names: &mut Vec<Name>) -> Result<(), AllocError> {
    let text = String::from_str(alloc, word)?;
    if let Some(name) = Name::new(text) {
        names.push(name)?;
    }
    Ok(())
}

/// The names that are written so. What is no name is left out.
pub(crate) fn push_names(
    alloc: Global,
    words: &[&str],
    names: &mut Vec<Name>,
) -> Result<(), AllocError> {
    for word in words {
        push_name(alloc, word, names)?;
    }
    Ok(())
}

/// The attributes that are left out, but for documentation where that is asked.
pub(crate) fn usually_skipped(alloc: Global, keeps_docs: bool) -> Result<Vec<Name>, AllocError> {
    let mut names = Vec::new(alloc);
    let words = if keeps_docs {
        &USUAL_SKIPPED[1..]
    } else {
        &USUAL_SKIPPED[..]
    };
    push_names(alloc, words, &mut names)?;
    Ok(names)
}

/// The edition of a year, with its keywords as the reserved words.
pub(crate) fn edition(alloc: Global, year: EditionYear) -> Result<Edition, AllocError> {
    let mut reserved = Vec::new(alloc);
    push_names(alloc, &KEYWORDS, &mut reserved)?;
    if year != EditionYear::E2015 {
        push_names(alloc, &KEYWORDS_SINCE_2018, &mut reserved)?;
    }
    if year == EditionYear::E2024 {
        push_names(alloc, &KEYWORDS_SINCE_2024, &mut reserved)?;
    }
    Ok(Edition { year, reserved })
}
