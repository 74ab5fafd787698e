//! The table of trees in a few lines: a file is set, and its tree is read.
use crate::db::table::crates;
use item_tree::CrateData;
use item_tree_db::Sources;
use std::alloc::{AllocError, Global};

// A table of these crates, in a box.
pub fn new_table(
    alloc: Global,
    crates: Vec<CrateData>,
    start: u64,
) -> Result<Box<Sources>, AllocError> {
    let sources = Sources::new(alloc, crates, Vec::new(alloc), start);
    Ok(Box::new(alloc, sources)?)
}
