//! Options given to a crate over two files and a block, where a request for memory is refused.
use crate::db::table::{Answer, BLOCK, CRATE, FILE, OTHER, are_set, make, table};
use crate::samples::attributes::{flag, options};
use item_tree_db::{Edit, Place, Sources};
use std::alloc::{AllocError, Global};

// Gives the crate the flag `test`. Whether that is the fourth edit, or handed back.
fn is_given_or_refused(alloc: Global, sources: &mut Sources) -> Result<bool, AllocError> {
    if !sources.knows(CRATE) {
        return Ok(false);
    }
    let (krate, options) = (CRATE, options(alloc, "test")?);
    let answer = make(sources, Edit::SetCfg { krate, options });
    Ok(matches!(answer, Answer::Made(4) | Answer::HandedBack))
}

// Whether the crate has the option exactly where the fourth edit was made.
fn has_option(alloc: Global, sources: &Sources) -> Result<bool, AllocError> {
    let test = flag(alloc, "test")?;
    let is_given = sources.number() == 4;
    Ok(sources.knows(CRATE) && sources.cfg_options(CRATE).check(&test) == Some(is_given))
}

// Whether the files' trees of the crate became others exactly where it was made. Nothing in the block is under a cfg.
fn stands(sources: &Sources) -> bool {
    let [first, second] = match sources.number() {
        4 => [4, 4],
        _ => [1, 2],
    };
    sources.knows(CRATE)
        && sources.file_syntax(FILE).is_some()
        && sources.file_syntax(OTHER).is_some()
        && sources.block_syntax(BLOCK).is_some()
        && sources.changed(Place::File(FILE), CRATE) == first
        && sources.changed(Place::File(OTHER), CRATE) == second
        && sources.changed(Place::Block(BLOCK), CRATE) == 3
}

fn are_options_given(alloc: Global) -> Result<bool, AllocError> {
    let mut sources = table(alloc, 0)?;
    if !are_set(alloc, &mut sources)? {
        return Ok(sources.number() < 3);
    }
    let is_answered = is_given_or_refused(alloc, &mut sources)?;
    Ok(is_answered && has_option(alloc, &sources)? && stands(&sources))
}

#[test]
fn options_are_given_or_handed_back_when_memory_is_refused(rt: HostRuntime) {
    assert!(rt; are_options_given(rt.alloc()).unwrap_or(true));
}
