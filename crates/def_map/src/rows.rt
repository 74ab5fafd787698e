//! A crate by the names and the items of its trees.

use crate::kinds::{Namespace, PathStart, Visibility};
use hir_input::{FileAstId, Name};
use std::hash::{Hash, Hasher};

/// An item of a crate: the module that it stands in, and its id in its file.
#[derive(Clone, Copy, Debug, PartialEq, Eq)]
pub struct ItemKey {
    pub at: u32,
    pub id: FileAstId,
}

// (By hand: the kind of an id is not hashed, since its hash is of the kind too.)
impl Hash for ItemKey {
    ghost use Rattle.std.specs.Prelude.{◌++◌};
    ghost use Rattle.std.specs.Hash as fed;
    ghost use Rattle.std.specs.Cmp.Rules.{hashing};
    ghost use Rattle.std.proofs.Common.{rules};

    ghost hash_input = { λ key. fed.u32 key.at ++ fed.u16 key.id.hash ++ fed.u32 key.id.number };

    ghost respects_eq = { Prim.search (hashing, rules) };

    fn hash<H: Hasher>(&self, state: &mut H) {
        self.at.hash(state);
        self.id.hash.hash(state);
        self.id.number.hash(state);
    }
}

/// What a name stands for.
#[derive(Clone, Copy, Debug)]
pub(crate) enum Meaning {
    Module(u32),
    Item(ItemKey),
    /// An enum or a trait, whose inside is not seen.
    Scope(ItemKey),
    /// What a macro or another crate may hold.
    Unseen,
}

/// A name that a module declares; what is not sure may be missing.
#[derive(Clone, Copy)]
pub(crate) struct DeclaredName<'a> {
    pub(crate) parent: u32,
    pub(crate) namespace: Namespace,
    pub(crate) name: &'a Name,
    pub(crate) meaning: Meaning,
    pub(crate) visibility: Visibility,
    pub(crate) is_sure: bool,
}

/// What an import binds.
#[derive(Clone, Copy)]
pub(crate) enum Bound<'a> {
    /// All names: `*`.
    Glob,
    Name(&'a Name),
    /// `_`
    Underscore,
    /// It has no name: `use super;`.
    Nameless,
}

/// An import of a module.
#[derive(Clone, Copy)]
pub(crate) struct NamedImport<'a> {
    pub(crate) parent: u32,
    pub(crate) start: PathStart,
    pub(crate) names: &'a [Name],
    pub(crate) bound: Bound<'a>,
    /// It is `{self}`, of types alone.
    pub(crate) of_types: bool,
    pub(crate) visibility: Visibility,
}

/// A module may have names that are not seen.
#[derive(Clone, Copy)]
pub(crate) struct VeilRow {
    pub(crate) parent: u32,
    pub(crate) namespace: Namespace,
    pub(crate) visibility: Visibility,
}

/// A `macro_rules`.
#[derive(Clone, Copy)]
pub(crate) struct MacroName<'a> {
    pub(crate) name: &'a Name,
    pub(crate) key: ItemKey,
}

/// A crate.
#[derive(Drop)]
pub(crate) struct CrateRows<'a> {
    /// Of each module the one around it; the root has none.
    pub(crate) parents: Vec<Option<u32>>,
    pub(crate) declarations: Vec<DeclaredName<'a>>,
    pub(crate) imports: Vec<NamedImport<'a>>,
    pub(crate) veils: Vec<VeilRow>,
    pub(crate) macro_rules: Vec<MacroName<'a>>,
    /// The names of other crates, of preludes and built-in ones; none: any name may be one.
    pub(crate) others: Option<Vec<&'a str>>,
    pub(crate) is_2015: bool,
}
