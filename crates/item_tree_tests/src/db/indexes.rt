//! An index that is refreshed over edits: where it finds a name, and how many entries the trees have that changed.
use crate::db::table::{are_set, table};
use crate::samples::memory::{leave_again, leave_none};
use crate::samples::words::name;
use decl_index::DeclIndex;
use hir_input::Name;
use item_tree_db::Sources;
use std::alloc::{AllocError, Global};

// Whether a refused refresh leaves the index as it was, and the next one is whole.
fn is_refreshed_again(alloc: Global, sources: &Sources) -> Result<bool, AllocError> {
    let mut index = DeclIndex::new(alloc);
    if index.refresh(alloc, sources).is_err() {
        if index.number().is_some() || !index.entries(alloc)?.is_empty() {
            return Ok(false);
        }
        index.refresh(alloc, sources)?;
    }
    Ok(index.number() == Some(3) && index.entries(alloc)?.len() == 6)
}

fn is_index_made(alloc: Global) -> Result<bool, AllocError> {
    let mut sources = table(alloc, 0)?;
    if !are_set(alloc, &mut sources)? {
        return Ok(sources.number() < 3);
    }
    is_refreshed_again(alloc, &sources)
}

#[test]
fn an_index_is_refreshed_again_when_memory_is_refused(rt: HostRuntime) {
    assert!(rt; is_index_made(rt.alloc()).unwrap_or(true));
}

fn is_looked_up(alloc: Global, sources: &Sources, name: &Name) -> Result<bool, AllocError> {
    let mut index = DeclIndex::new(alloc);
    index.refresh(alloc, sources)?;
    leave_none(alloc)?;
    let is_found = index.lookup(name).len() == 6;
    let is_new = DeclIndex::new(alloc).number().is_none();
    leave_again(alloc)?;
    Ok(is_found && is_new)
}

fn is_name_found(alloc: Global) -> Result<bool, AllocError> {
    let Some(name) = name(alloc, "f")? else {
        return Ok(false);
    };
    let mut sources = table(alloc, 0)?;
    Ok(are_set(alloc, &mut sources)? && is_looked_up(alloc, &sources, &name)?)
}

#[test]
fn an_index_is_looked_up_where_no_memory_is_left(rt: HostRuntime) {
    assert!(rt; is_name_found(rt.alloc()).unwrap_or(false));
}
