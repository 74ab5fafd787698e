//! Lowering where a request for memory is refused: a whole tree or a refusal, where of two requests never both are
//! refused.
use crate::lowered::{is_right, tree_of, tree_of_all_kinds};
use crate::samples::file::file;
use hir_input::ast::Syntax;
use item_tree::{ItemTree, LowerError};
use std::alloc::Global;

// Whether a syntax has this tree, of two requests at least once.
fn is_lowered(alloc: Global, syntax: &Syntax, wanted: &ItemTree) -> bool {
    let mut is_lowered = false;
    for _ in 0..2 {
        match tree_of(alloc, syntax) {
            Ok(tree) => {
                if *tree != *wanted {
                    return false;
                }
                is_lowered = true;
            }
            Err(error) => {
                if error != LowerError::OutOfMemory {
                    return false;
                }
            }
        }
    }
    is_lowered
}

fn is_file_lowered(alloc: Global) -> Result<bool, LowerError> {
    let syntax = file(alloc, 18)?;
    let wanted = tree_of_all_kinds(alloc)?;
    Ok(is_lowered(alloc, &syntax, &wanted))
}

#[test]
fn a_tree_is_whole_or_refused_when_memory_is_refused(rt: HostRuntime) {
    assert!(rt; is_right(is_file_lowered(rt.alloc())));
}
