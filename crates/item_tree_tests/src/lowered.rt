//! Trees that the tests read, of a crate without options and attributes.
use crate::samples::file::file;
use crate::samples::items::{file_of, use_of};
use hir_input::ast::{Syntax, UseTree};
use hir_input::{CfgOptions, Edition, EditionYear, HirFileId};
use item_tree::{CrateData, ItemTree, LowerError, ModItemKind, Use, lower_syntax};
use std::alloc::Global;

pub fn bare_crate(alloc: Global) -> CrateData {
    CrateData {
        root: HirFileId(0),
        cfg: CfgOptions::new(Vec::new(alloc)),
        attrs: Vec::new(alloc),
    }
}

// The edition 2024 without its reserved words.
pub fn edition(alloc: Global) -> Edition {
    Edition {
        year: EditionYear::E2024,
        reserved: Vec::new(alloc),
    }
}

// A tree in a box: whoever holds a tree itself, and drops it, is proved slowly.
pub fn tree_of(alloc: Global, syntax: &Syntax) -> Result<Box<ItemTree>, LowerError> {
    let tree = lower_syntax(alloc, syntax, false, &bare_crate(alloc), &[])?;
    Ok(Box::new(alloc, tree)?)
}

// The tree of a file with this use tree alone.
pub fn tree_of_use(alloc: Global, tree: UseTree) -> Result<Box<ItemTree>, LowerError> {
    tree_of(alloc, &file_of(alloc, use_of(alloc, 1, tree))?)
}

// The tree of the file with an item of each kind.
pub fn tree_of_all_kinds(alloc: Global) -> Result<Box<ItemTree>, LowerError> {
    tree_of(alloc, &file(alloc, 18)?)
}

// The first use at the top of a tree.
pub fn first_use(tree: &ItemTree) -> Option<&Use> {
    for id in tree.top_level_items() {
        if tree.contains(*id) {
            if let ModItemKind::Use(_, item) = tree.index(*id) {
                return Some(item);
            }
        }
    }
    None
}

// Whether an answer is as wanted, or refused for out of memory.
pub fn is_right(answer: Result<bool, LowerError>) -> bool {
    match answer {
        Ok(is_wanted) => is_wanted,
        Err(error) => error == LowerError::OutOfMemory,
    }
}
