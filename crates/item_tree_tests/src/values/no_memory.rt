//! Names, paths, options, use trees and attributes, where no memory is left.
use crate::samples::attributes::{condition, key_value, options, words};
use crate::samples::memory::{leave_again, leave_none};
use crate::samples::use_trees::with_lists;
use crate::samples::words::{name, text};
use hir_input::ast::UseTree;
use hir_input::{CfgAtom, CfgExpr, CfgOptions, Edition, EditionYear, ModPath, Name, PathKind};
use item_tree_attrs::{AttrError, Attrs, AttrsOrCfg};
use std::alloc::{AllocError, Global};

// What the calls below read, made beforehand.
#[derive(Drop)]
struct Parts {
    text: String,
    segments: Vec<Name>,
    atoms: Vec<CfgAtom>,
    edition: Edition,
    // Room for a path as it is displayed.
    room: String,
}

fn make_parts(alloc: Global) -> Result<Parts, AllocError> {
    let mut segments = Vec::new(alloc);
    if let Some(name) = name(alloc, "a")? {
        segments.push(name)?;
    }
    let edition = Edition {
        year: EditionYear::E2024,
        reserved: Vec::new(alloc),
    };
    Ok(Parts {
        text: text(alloc, "x")?,
        segments,
        atoms: Vec::new(alloc),
        edition,
        room: String::with_capacity(alloc, 100)?,
    })
}

// Whether a path is made and displayed.
fn is_path_made(segments: Vec<Name>, edition: &Edition, room: &mut String) -> bool {
    let Some(path) = ModPath::from_segments(PathKind::Plain, segments) else {
        return false;
    };
    let shown = path.display(edition);
    path.kind() == PathKind::Plain
        && path.segments().len() == 1
        && path.as_ident().is_some()
        && write!(room, "{shown}").is_ok()
        && room.as_str() == "a"
}

// Whether a name and options are made, and the flag of this name is not set.
fn is_flag_asked(text: String, atoms: Vec<CfgAtom>) -> bool {
    match Name::new(text) {
        Some(name) => {
            let flag = CfgExpr::Atom(CfgAtom::Flag(name));
            CfgOptions::new(atoms).check(&flag) == Some(false)
        }
        None => false,
    }
}

fn are_words_made(parts: Parts) -> bool {
    let Parts {
        text,
        segments,
        atoms,
        edition,
        mut room,
    } = parts;
    is_path_made(segments, &edition, &mut room) && is_flag_asked(text, atoms)
}

// `#[a] #[key = "a"]`
fn collect_all(alloc: Global) -> Result<AttrsOrCfg, AttrError> {
    let mut metas = words(alloc, &["a"])?;
    metas.push(key_value(alloc)?)?;
    AttrsOrCfg::lower(alloc, &metas, &options(alloc, "")?, &[])
}

// Whether the two attributes are lent, each way.
fn are_lent(attrs: Attrs<'_>) -> bool {
    let key = attrs.by_key("key");
    attrs.as_slice().len() == 2
        && attrs.iter().next().is_some()
        && attrs.iter_after(None).next().is_some()
        && key.exists()
        && key.attrs().next().is_some()
        && key.tt_values().next().is_none()
        && key.string_value_with_span().is_some()
        && !attrs.is_proc_macro()
        && !attrs.is_proc_macro_attribute()
}

fn are_attributes_lent(attrs: &AttrsOrCfg) -> bool {
    match attrs {
        AttrsOrCfg::Enabled { attrs } => are_lent(attrs.as_ref()),
        AttrsOrCfg::CfgDisabled(_) => false,
    }
}

// Whether an owner with a false cfg is joined with another.
fn is_joined(left: AttrsOrCfg, right: AttrsOrCfg, wanted: &AttrsOrCfg) -> bool {
    match left.merge(right) {
        Ok(joined) => joined == *wanted,
        Err(_) => false,
    }
}

// `#[cfg(x)]`
fn disable(alloc: Global) -> Result<AttrsOrCfg, AttrError> {
    let metas = vec![in alloc; condition(alloc, "x")?]?;
    AttrsOrCfg::lower(alloc, &metas, &options(alloc, "")?, &[])
}

// Whether attributes are asked and joined where no memory is left.
fn are_attributes_read(alloc: Global) -> Result<bool, AttrError> {
    let attrs = collect_all(alloc)?;
    let (left, twin) = (disable(alloc)?, disable(alloc)?);
    let right = collect_all(alloc)?;
    leave_none(alloc)?;
    let are_read = AttrsOrCfg::empty(alloc).is_empty() && are_attributes_lent(&attrs);
    let is_joined = is_joined(left, right, &twin);
    leave_again(alloc)?;
    Ok(are_read && is_joined)
}

#[test]
fn attributes_are_read_where_no_memory_is_left(rt: HostRuntime) {
    assert!(rt; are_attributes_read(rt.alloc()).unwrap_or(false));
}

// Whether the node behind an empty list is found.
fn is_node_found(tree: &UseTree) -> bool {
    tree.at(2).is_some() && tree.at(5).is_none()
}

// Whether names, paths, options and use trees are read where no memory is left.
fn are_words_read(alloc: Global) -> Result<bool, AllocError> {
    let (parts, tree) = (make_parts(alloc)?, with_lists(alloc)?);
    leave_none(alloc)?;
    let are_read = are_words_made(parts) && is_node_found(&tree);
    leave_again(alloc)?;
    Ok(are_read)
}

#[test]
fn words_are_read_where_no_memory_is_left(rt: HostRuntime) {
    assert!(rt; are_words_read(rt.alloc()).unwrap_or(false));
}
