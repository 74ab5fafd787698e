//! The imports of `use a::{*, self as b, {c, {d::*}}};`, called for and listed, and those of as many supers as fit.
use crate::lowered::{first_use, is_right, tree_of_all_kinds};
use hir_input::ModPath;
use item_tree::{ImportAlias, ImportKind, LowerError, Use, UseTreeIdx};
use std::alloc::Global;

pub(crate) const CALLS: &str = "\
UseTreeIdx(1) ModPath { kind: Plain, segments: [Name { text: \"a\" }] } Glob None
UseTreeIdx(2) ModPath { kind: Plain, segments: [Name { text: \"a\" }] } TypeOnly Some(Alias(Name { text: \"b\" }))
UseTreeIdx(4) ModPath { kind: Plain, segments: [Name { text: \"a\" }, Name { text: \"c\" }] } Plain None
UseTreeIdx(6) ModPath { kind: Plain, segments: [Name { text: \"a\" }, Name { text: \"d\" }] } Glob None
";

// The calls that were made, up to one whose text could not be written.
#[derive(Drop)]
struct Calls {
    text: String,
    is_cut: bool,
}

fn note(
    calls: &mut Calls,
    index: UseTreeIdx,
    path: &ModPath,
    kind: ImportKind,
    alias: &Option<ImportAlias>,
) {
    if !calls.is_cut {
        calls.is_cut = writeln!(calls.text, "{index:?} {path:?} {kind:?} {alias:?}").is_err();
    }
}

// Whether the calls made are all those wanted, or none where memory was refused: then they are the first of them.
#[tactic(auto, using(item_tree::proofs::Calling::may_call_always))]
fn expands(alloc: Global, item: &Use) -> Option<bool> {
    let mut calls = Calls {
        text: String::new(alloc),
        is_cut: false,
    };
    let expanded = item.expand(
        alloc,
        &mut |index, path, kind, alias| note(&mut calls, index, &path, kind, &alias),
    );
    if expanded.is_ok() && !calls.is_cut {
        return Some(calls.text.as_str() == CALLS);
    }
    if CALLS.starts_with(calls.text.as_str()) {
        return None;
    }
    Some(false)
}

// Whether the imports of the first use are called for, of two requests at least once.
fn are_called(alloc: Global) -> Result<bool, LowerError> {
    let tree = tree_of_all_kinds(alloc)?;
    match first_use(&tree) {
        Some(item) => {
            let first = expands(alloc, item);
            let second = expands(alloc, item);
            Ok(first.or(second) == Some(true) && second != Some(false))
        }
        None => Ok(false),
    }
}

#[test]
fn imports_are_called_in_order_when_memory_is_refused(rt: HostRuntime) {
    assert!(rt; is_right(are_called(rt.alloc())));
}
