//! What may hold of the names of a crate, and the table by which facts follow from others. Modules, imports, names and
//! items are numbers.

use crate::kinds::{Namespace, Visibility};
use indexmap::IndexSet;

/// What a name stands for.
#[derive(Clone, Copy, PartialEq, Eq, Hash)]
pub enum Thing {
    Module(u32),
    Item(u32),
    /// An enum or a trait, whose inside is not seen.
    Scope(u32),
    /// What a macro or another crate may hold.
    Unseen,
}

/// What holds of a crate.
#[derive(Clone, Copy, PartialEq, Eq, Hash)]
pub enum Fact {
    /// In this module and namespace, this name stands for this thing, and these see it.
    Names(u32, Namespace, u32, Thing, Visibility),
    /// In this module and namespace, every name may stand for what is unseen, and these would see it.
    EveryName(u32, Namespace, Visibility),
    /// The path of this import is, behind so many of its names, at this thing.
    Stands(u32, usize, Thing),
    /// This import gives this thing, in this namespace, and these see it.
    Gives(u32, Namespace, Thing, Visibility),
    /// A glob copies what the first module names to the second, for these.
    Copies(u32, u32, Visibility),
}

/// What an import is called.
#[derive(Clone, Copy, PartialEq, Eq)]
pub enum ImportName {
    /// `*`
    Glob,
    Named(u32),
    /// `_`, or a name that no path has.
    Unnamed,
}

/// An import.
#[derive(Drop)]
pub struct Import {
    /// The module that it stands in.
    pub home: u32,
    /// The names of its path.
    pub path: Vec<u32>,
    pub name: ImportName,
    /// It is `{self}`, which gives types alone.
    pub types_alone: bool,
    pub visibility: Visibility,
}

/// A name that a module declares for sure.
#[derive(Clone, Copy, PartialEq, Eq, Hash)]
pub struct Declared {
    pub home: u32,
    pub namespace: Namespace,
    pub name: u32,
}

/// By what facts follow from others.
#[derive(Drop)]
pub struct ImportTable {
    /// Of each module the one around it; the root has none.
    pub parents: Vec<Option<u32>>,
    pub imports: Vec<Import>,
    pub declared: IndexSet<Declared>,
}
