//! Texts, names and paths.
use hir_input::ast::{PathNode, Visibility};
use hir_input::{ModPath, Name, PathKind};
use std::alloc::{AllocError, Global};

/// The text of a literal or of tokens.
pub fn text(alloc: Global, text: &str) -> Result<String, AllocError> {
    String::from_str(alloc, text)
}

/// Puts what was made at the end of the list.
pub fn push<T: Drop>(list: &mut Vec<T>, made: Result<T, AllocError>) -> Result<(), AllocError> {
    list.push(made?)?;
    Ok(())
}

/// A name, or none where the text is none.
pub fn name(alloc: Global, text: &str) -> Result<Option<Name>, AllocError> {
    Ok(Name::new(String::from_str(alloc, text)?))
}

/// A path of one name, or of none where the text is no name. A plain path without a name is none.
pub fn path(alloc: Global, kind: PathKind, text: &str) -> Result<Option<ModPath>, AllocError> {
    let mut segments = Vec::new(alloc);
    if let Some(name) = name(alloc, text)? {
        segments.push(name)?;
    }
    Ok(ModPath::from_segments(kind, segments))
}

/// A written path, as of `path`.
pub fn path_node(
    alloc: Global,
    kind: PathKind,
    text: &str,
) -> Result<Option<PathNode>, AllocError> {
    match path(alloc, kind, text)? {
        Some(path) => Ok(Some(PathNode::Readable(path))),
        None => Ok(None),
    }
}

/// `pub(in ..)`, of a path as of `path`, or of one that is not readable.
pub fn within(alloc: Global, kind: PathKind, text: &str) -> Result<Visibility, AllocError> {
    match path(alloc, kind, text)? {
        Some(path) => Ok(Visibility::InPath(PathNode::Readable(path))),
        None => Ok(Visibility::InPath(PathNode::Unreadable)),
    }
}
