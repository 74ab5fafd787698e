//! Namespaces, visibilities, and where the path of an import begins.

/// A name may stand for a thing in each of them. rust-analyzer's `PerNs` has a field for each.
#[derive(Clone, Copy, PartialEq, Eq, Hash)]
pub enum Namespace {
    Types,
    Values,
    Macros,
}

/// Who sees a name. rust-analyzer's `Visibility`.
#[derive(Clone, Copy, PartialEq, Eq, Hash)]
pub enum Visibility {
    Public,
    /// The module of this number, and all in it.
    Module(u32),
}

/// Where the path of an import begins. rust-analyzer's `PathKind`.
#[derive(Clone, Copy, PartialEq, Eq, Hash)]
pub enum PathStart {
    /// `crate`
    Crate,
    /// `self`, `super`, `super::super`: so many modules up.
    Super(u32),
    /// A name.
    Plain,
    /// `::`
    Abs,
}
