//! A table over two files and a block, read where no memory is left, and a file removed.
use crate::db::table::{Answer, BLOCK, CRATE, FILE, OTHER, are_set, make, table};
use crate::samples::memory::{leave_again, leave_none};
use hir_input::CfgExpr;
use item_tree::CrateData;
use item_tree_db::{Edit, Place, Sources, TreeId, file_item_tree};
use std::alloc::{AllocError, Global};

fn count_changes(sources: &Sources) -> usize {
    let mut count = 0usize;
    for _ in sources.changed_since(0) {
        count = count.saturating_add(1);
    }
    count
}

// Whether the trees of the second file and of the block are lent.
fn are_trees_lent(sources: &Sources) -> bool {
    if !sources.knows(CRATE) {
        return false;
    }
    let block = TreeId::new(FILE, Some(BLOCK));
    let other = file_item_tree(sources, OTHER, CRATE);
    block.is_block()
        && block.file_id() == FILE
        && block.item_tree(sources, CRATE).top_level_items().len() == 3
        && other.top_level_items().len() == 1
}

// Whether the table is read as it is, each place in both crates.
fn is_read(sources: &Sources) -> bool {
    sources.knows(CRATE)
        && sources.number() == 3
        && sources
            .cfg_options(CRATE)
            .check(&CfgExpr::Invalid)
            .is_none()
        && sources.file_syntax(FILE).is_some()
        && sources.block_syntax(BLOCK).is_some()
        && are_trees_lent(sources)
        && sources.changed(Place::Block(BLOCK), CRATE) == 3
}

fn is_removed(sources: &mut Sources) -> bool {
    let answer = make(sources, Edit::RemoveFile { file: FILE });
    matches!(answer, Answer::Made(4))
}

fn is_made(alloc: Global, crates: Vec<CrateData>) -> bool {
    Sources::new(alloc, crates, Vec::new(alloc), 7).number() == 7
}

fn is_table_read(alloc: Global) -> Result<bool, AllocError> {
    let mut sources = table(alloc, 0)?;
    let is_set = are_set(alloc, &mut sources)? && count_changes(&sources) == 6;
    leave_none(alloc)?;
    let is_read = is_read(&sources);
    let is_removed = is_removed(&mut sources);
    let is_made = is_made(alloc, Vec::new(alloc));
    leave_again(alloc)?;
    Ok(is_set && is_read && is_removed && is_made)
}

#[test]
fn a_table_is_read_where_no_memory_is_left(rt: HostRuntime) {
    assert!(rt; is_table_read(rt.alloc()).unwrap_or(false));
}
