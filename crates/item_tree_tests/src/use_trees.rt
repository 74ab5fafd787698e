//! What is kept of a use tree, and where it is written.
use crate::lowered::is_right;
use crate::samples::use_trees::{partly_kept, two_names};
use hir_input::ast::UseTree;
use item_tree::{LowerError, lower_use_tree};
use std::alloc::Global;

// Whether a use tree is kept as another, at these places, of two requests at least once.
fn is_kept(alloc: Global, written: &UseTree, kept: &item_tree::UseTree, wanted: &[u32]) -> bool {
    let mut is_kept = false;
    for _ in 0..2 {
        if let Ok(Some((tree, places))) = lower_use_tree(alloc, written) {
            if tree != *kept || places.as_slice() != wanted {
                return false;
            }
            is_kept = true;
        }
    }
    is_kept
}

// Whether a use tree is kept as all of another one, at these places.
fn is_kept_as(
    alloc: Global,
    written: &UseTree,
    other: &UseTree,
    wanted: &[u32],
) -> Result<bool, LowerError> {
    match lower_use_tree(alloc, other)? {
        Some((kept, _)) => Ok(is_kept(alloc, written, &kept, wanted)),
        None => Ok(false),
    }
}

// Whether `a::{b, c::* as g, ?, d}` is kept as `a::{b, d}`.
fn is_partly_kept(alloc: Global) -> Result<bool, LowerError> {
    let written = partly_kept(alloc)?;
    let names = two_names(alloc)?;
    is_kept_as(alloc, &written, &names, &[0, 1, 4])
}

#[test]
fn places_are_whole_or_refused_when_memory_is_refused(rt: HostRuntime) {
    assert!(rt; is_right(is_partly_kept(rt.alloc())));
}
