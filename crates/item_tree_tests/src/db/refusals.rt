//! What stands of a table where a request for memory is refused.
use crate::db::table::{Answer, FILE, make_all, set_file, table};
use hir_input::Crate;
use hir_input::ast::Syntax;
use item_tree_db::{Place, Sources, file_item_tree};
use std::alloc::{AllocError, Global};

// Whether the file is set, and this is the next edit, or the edit is handed back.
fn is_set_or_refused(
    alloc: Global,
    sources: &mut Sources,
    is_marked: bool,
) -> Result<bool, AllocError> {
    let before = sources.number();
    match set_file(alloc, sources, FILE, is_marked)? {
        Answer::Made(number) => Ok(
            Some(number) == before.checked_add(1) && sources.number() == number,
        ),
        Answer::HandedBack => Ok(sources.number() == before),
        Answer::Other => Ok(false),
    }
}

// Whether the table stands as after its edits of the file. An attribute behind a false cfg moves no number: the second
// crate's tree stays as it was after the first.
fn stands(sources: &Sources) -> bool {
    let number = sources.number();
    sources.file_syntax(FILE).is_some() == (number > 0)
        && sources.knows(Crate(0))
        && sources.changed(Place::File(FILE), Crate(0)) == number
        && file_item_tree(sources, FILE, Crate(0))
            .top_level_items()
            .is_empty()
            == (number == 0)
        && sources.knows(Crate(1))
        && sources.changed(Place::File(FILE), Crate(1)) == number.min(1)
        && !sources.knows(Crate(2))
}

// Whether a first edit of the file and a second one are made or handed back.
fn are_made_or_refused(alloc: Global) -> Result<bool, AllocError> {
    let mut sources = table(alloc, 0)?;
    let is_first = is_set_or_refused(alloc, &mut sources, false)? && stands(&sources);
    let is_second = is_set_or_refused(alloc, &mut sources, true)? && stands(&sources);
    Ok(is_first && is_second && sources.number() > 0)
}

#[test]
fn an_edit_is_made_or_handed_back_when_memory_is_refused(rt: HostRuntime) {
    assert!(rt; are_made_or_refused(rt.alloc()).unwrap_or(true));
}

// How many edits of a list are made: all, or those before one that takes memory.
fn count_made(alloc: Global, sources: &mut Sources) -> Result<Option<usize>, AllocError> {
    match make_all(alloc, sources)? {
        Ok(6) => Ok(Some(6)),
        Ok(_) => Ok(None),
        Err(refusal) => match refusal.place {
            0 | 3 | 4 if refusal.is_handed_back => Ok(Some(refusal.place)),
            _ => Ok(None),
        },
    }
}

// Whether the table has the number of the edits that were made, and that of the last at which the file became another;
// and the file its function after the first and the fourth alone, and after the fifth what could not be parsed.
fn stands_after(sources: &Sources, made: usize) -> bool {
    let has_item = made == 1 || made == 4;
    match [0, 1, 2, 2, 4, 5, 5].as_slice().get(made) {
        Some(changed) => sources.number() == made as u64
            && sources.knows(Crate(0))
            && sources.changed(Place::File(FILE), Crate(0)) == *changed
            && file_item_tree(sources, FILE, Crate(0))
                .top_level_items()
                .is_empty()
                != has_item
            && matches!(sources.file_syntax(FILE), Some(Syntax::Error)) == (made > 4),
        None => false,
    }
}

fn is_history_made(alloc: Global) -> Result<bool, AllocError> {
    let mut sources = table(alloc, 0)?;
    match count_made(alloc, &mut sources)? {
        Some(made) => Ok(stands_after(&sources, made)),
        None => Ok(false),
    }
}

#[test]
fn a_list_of_edits_stands_up_to_its_first_refusal_when_memory_is_refused(rt: HostRuntime) {
    assert!(rt; is_history_made(rt.alloc()).unwrap_or(true));
}
