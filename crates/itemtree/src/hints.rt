//! What is told beside the problems of a text.
use crate::options::options_in;
use hir_input::EditionYear;
use itemtree_commands::check;
use source_listing::Source;
use std::alloc::{AllocError, Global};

/// Whether fewer bytes than these tell what is wrong with a text in an edition.
fn is_better_in(
    alloc: Global,
    source: Source<'_>,
    year: EditionYear,
    is_colored: bool,
    length: usize,
) -> Result<bool, AllocError> {
    match check(alloc, source, &options_in(alloc, year)?, is_colored) {
        Ok(checked) => Ok(checked.text.len() < length),
        Err(_) => Ok(false),
    }
}

/// The year of the last edition before the default one in which less is wrong with a text than these bytes tell: words
/// that are keywords by default may be names there. What is no keyword in 2021 is none in 2018.
pub(crate) fn better_edition(
    alloc: Global,
    source: Source<'_>,
    is_colored: bool,
    length: usize,
) -> Result<Option<u16>, AllocError> {
    if is_better_in(alloc, source, EditionYear::E2021, is_colored, length)? {
        return Ok(Some(2021));
    }
    if is_better_in(alloc, source, EditionYear::E2015, is_colored, length)? {
        return Ok(Some(2015));
    }
    Ok(None)
}
