//! Items, with a number each for their hash.
use crate::samples::words::name;
use hir_input::Meta;
use hir_input::ast::{Fn, Item, Struct, StructKind, Syntax, TupleField, Use, UseTree, Visibility};
use std::alloc::{AllocError, Global};

/// A file without attributes, of one item.
pub fn file_of(alloc: Global, item: Item) -> Result<Syntax, AllocError> {
    let mut items = Vec::new(alloc);
    items.push(item)?;
    let attrs = Vec::new(alloc);
    Ok(Syntax::SourceFile { attrs, items })
}

/// `fn f() {}`
pub fn function(
    alloc: Global,
    hash: u16,
    attrs: Vec<Meta>,
    visibility: Option<Visibility>,
) -> Result<Item, AllocError> {
    let name = name(alloc, "f")?;
    Ok(Item::Fn(Fn {
        hash,
        attrs,
        visibility,
        ..Fn::new(alloc, name)
    }))
}

/// A file with attributes on its one item, `fn f() {}`.
pub fn one_function(alloc: Global, attrs: Vec<Meta>) -> Result<Syntax, AllocError> {
    file_of(alloc, function(alloc, 48783, attrs, None)?)
}

/// `use TREE;`
pub fn use_of(alloc: Global, hash: u16, tree: UseTree) -> Item {
    let mut item = Use::new(alloc, tree);
    item.hash = hash;
    Item::Use(item)
}

/// `pub struct S(..);`, with a field of each of these visibilities.
pub fn tuple_struct(alloc: Global, hash: u16, fields: Vec<TupleField>) -> Result<Item, AllocError> {
    let name = name(alloc, "S")?;
    Ok(Item::Struct(Struct {
        hash,
        visibility: Some(Visibility::Pub),
        ..Struct::new(alloc, name, StructKind::Tuple(fields))
    }))
}
