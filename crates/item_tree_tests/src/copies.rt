//! Copies and readings, whole or refused, and of two requests never both refused.
use crate::lowered::{first_use, is_right, tree_of_all_kinds};
use crate::samples::words::{name, path, within};
use hir_input::PathKind;
use hir_input::ast::Visibility;
use item_tree::{
    ImportAlias, LowerError, RawVisibility, VisibilityExplicitness, visibility_from_ast,
};
use std::alloc::{AllocError, Global};

// Whether a copy is made, of two requests at least once, and equal to its source.
pub fn is_copied<T: Clone + PartialEq + Drop>(source: &T) -> bool {
    let mut is_made = false;
    for _ in 0..2 {
        if let Ok(copy) = source.clone() {
            if copy != *source {
                return false;
            }
            is_made = true;
        }
    }
    is_made
}

// The same of what is there, or it was not made for out of memory.
pub fn copies<T: Clone + PartialEq + Drop>(source: Result<Option<T>, AllocError>) -> bool {
    match source {
        Ok(Some(source)) => is_copied(&source),
        Ok(None) => false,
        Err(AllocError) => true,
    }
}

#[test]
fn copies_of_words_are_whole_or_refused_when_memory_is_refused(rt: HostRuntime) {
    assert!(rt; copies(path(rt.alloc(), PathKind::Super(2), "a")));
    assert!(rt; copies(name(rt.alloc(), "g")));
}

fn alias(alloc: Global) -> Result<Option<ImportAlias>, AllocError> {
    match name(alloc, "g")? {
        Some(name) => Ok(Some(ImportAlias::Alias(name))),
        None => Ok(None),
    }
}

// Whether the first use is copied, and its parts.
fn are_uses_copied(alloc: Global) -> Result<bool, LowerError> {
    let tree = tree_of_all_kinds(alloc)?;
    match first_use(&tree) {
        Some(item) => Ok(
            is_copied(item) && is_copied(item.use_tree()) && is_copied(item.use_tree().kind()),
        ),
        None => Ok(false),
    }
}

#[test]
fn copies_of_uses_are_whole_or_refused_when_memory_is_refused(rt: HostRuntime) {
    assert!(rt; copies(alias(rt.alloc())));
    assert!(rt; is_right(are_uses_copied(rt.alloc())));
}

// Whether a visibility is read as wanted, of two requests at least once, and copied.
fn is_read(alloc: Global, written: &Visibility, wanted: &RawVisibility) -> bool {
    let mut is_read = false;
    for _ in 0..2 {
        if let Ok(read) = visibility_from_ast(alloc, Some(written)) {
            if !is_copied(&read) || read != *wanted {
                return false;
            }
            is_read = true;
        }
    }
    is_read
}

fn is_visibility_read(alloc: Global) -> Result<bool, LowerError> {
    let written = within(alloc, PathKind::Crate, "m")?;
    match path(alloc, PathKind::Crate, "m")? {
        Some(path) => {
            let wanted = RawVisibility::Module(path, VisibilityExplicitness::Explicit);
            Ok(is_read(alloc, &written, &wanted))
        }
        None => Ok(false),
    }
}

#[test]
fn a_visibility_is_read_or_refused_when_memory_is_refused(rt: HostRuntime) {
    assert!(rt; is_right(is_visibility_read(rt.alloc())));
}
