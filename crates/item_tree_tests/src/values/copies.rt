//! A copy is equal to its source, or refused, and of two requests never both are refused.
use crate::copies::{copies as copies_some, is_copied};
use crate::samples::attributes::{flag, literal, nested_meta, options, tokens};
use crate::samples::words::{name, path};
use hir_input::{Attr, AttrInput, CfgAtom, Edition, EditionYear, PathKind, SyntaxContext};
use std::alloc::{AllocError, Global};

// Whether a source is copied, or it was not made for out of memory.
fn copies<T: Clone + PartialEq + Drop>(source: Result<T, AllocError>) -> bool {
    match source {
        Ok(source) => is_copied(&source),
        Err(AllocError) => true,
    }
}

fn edition(alloc: Global) -> Result<Edition, AllocError> {
    let mut reserved = Vec::new(alloc);
    if let Some(word) = name(alloc, "type")? {
        reserved.push(word)?;
    }
    Ok(Edition {
        year: EditionYear::E2024,
        reserved,
    })
}

#[test]
fn copies_of_editions_are_whole_or_refused_when_memory_is_refused(rt: HostRuntime) {
    assert!(rt; copies(edition(rt.alloc())));
}

// `#[super::a = "a"]`
fn attr(alloc: Global) -> Result<Option<Attr>, AllocError> {
    let input = Some(AttrInput::Literal(literal(alloc)?));
    match path(alloc, PathKind::Super(1), "a")? {
        Some(path) => Ok(Some(Attr {
            path,
            input,
            ctxt: SyntaxContext::Root(EditionYear::E2024),
        })),
        None => Ok(None),
    }
}

fn token_input(alloc: Global) -> Result<AttrInput, AllocError> {
    Ok(AttrInput::TokenTree(tokens(alloc)?))
}

#[test]
fn copies_of_attributes_are_whole_or_refused_when_memory_is_refused(rt: HostRuntime) {
    assert!(rt; copies_some(attr(rt.alloc())));
    assert!(rt; copies(literal(rt.alloc())));
    assert!(rt; copies(tokens(rt.alloc())));
    assert!(rt; copies(token_input(rt.alloc())));
}

#[test]
fn copies_of_metas_are_whole_or_refused_when_memory_is_refused(rt: HostRuntime) {
    assert!(rt; copies(nested_meta(rt.alloc())));
}

fn atom(alloc: Global) -> Result<Option<CfgAtom>, AllocError> {
    match name(alloc, "test")? {
        Some(name) => Ok(Some(CfgAtom::Flag(name))),
        None => Ok(None),
    }
}

#[test]
fn copies_of_options_are_whole_or_refused_when_memory_is_refused(rt: HostRuntime) {
    assert!(rt; copies_some(atom(rt.alloc())));
    assert!(rt; copies(flag(rt.alloc(), "test")));
    assert!(rt; copies(options(rt.alloc(), "test")));
}
