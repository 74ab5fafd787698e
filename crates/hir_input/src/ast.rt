//! The syntax that a tree is made from, as far as an item tree reads it. The nodes of items have the names of
//! rust-analyzer's `ast`; `Syntax`, `Stmt` and `Tail` have no counterpart there.
//!
//! Each node has the `hash` and the `number` of its id, as rust-analyzer's `AstIdMap` gives them, the kind coming
//! from the node's case; its `attrs`; and the text of its `body`, on which no item tree depends.

mod constructors;
mod plain;

use crate::attr::Meta;
use crate::expand_to::ExpandTo;
use crate::ids::SyntaxContext;
use crate::mod_path::ModPath;
use crate::name::Name;

/// The syntax of a file or of a macro's result.
#[derive(Debug)]
pub enum Syntax {
    /// A file, with its inner attributes and its items.
    SourceFile { attrs: Vec<Meta>, items: Vec<Item> },
    /// The result of a macro call in the place of items.
    MacroItems { items: Vec<Item> },
    /// The result of a macro call in the place of statements.
    MacroStmts { stmts: Vec<Stmt>, tail: Tail },
    /// What could not be parsed or expanded.
    Error,
}

// (Written out: what is derived is proved anew, field by field, in each crate that drops one.)
impl Drop for Syntax {
    fn drop(self) {
        match self {
            Syntax::SourceFile { attrs: _, items: _ } => {}
            Syntax::MacroItems { items: _ } => {}
            Syntax::MacroStmts { stmts: _, tail: _ } => {}
            Syntax::Error => {}
        }
    }
}

/// A block expression, which may have items of its own.
#[derive(Debug)]
pub struct BlockExpr {
    pub attrs: Vec<Meta>,
    pub stmts: Vec<Stmt>,
    pub tail: Tail,
}

// (Written out: what is derived is proved anew, field by field, in each crate that drops one.)
impl Drop for BlockExpr {
    fn drop(self) {
        let BlockExpr {
            attrs: _,
            stmts: _,
            tail: _,
        } = self;
    }
}

/// A statement.
#[derive(Debug, Drop)]
pub enum Stmt {
    /// An item in the place of a statement.
    Item(Item),
    /// A macro call in the place of a statement.
    MacroCall(MacroCall),
    /// A `let`, or an expression.
    Other,
}

/// The expression after the last statement.
#[derive(Debug, Drop)]
pub enum Tail {
    /// No expression.
    Nothing,
    /// A macro call.
    MacroCall(MacroCall),
    /// Any other expression.
    Other,
}

/// An item, of a file or of a module.
#[derive(Debug, Drop)]
#[cycle(ast)]
pub enum Item {
    /// Assembly, as `global_asm!(..)`.
    AsmExpr(AsmExpr),
    /// `const N: T = ..;`
    Const(Const),
    /// `enum N { .. }`
    Enum(Enum),
    /// `extern { .. }`
    ExternBlock(ExternBlock),
    /// `extern crate n;`
    ExternCrate(ExternCrate),
    /// `fn n(..) { .. }`
    Fn(Fn),
    /// `impl .. { .. }`
    Impl(Impl),
    /// `m!(..);`
    MacroCall(MacroCall),
    /// `macro n(..) { .. }`
    MacroDef(MacroDef),
    /// `macro_rules! n { .. }`
    MacroRules(MacroRules),
    /// `mod n;` or `mod n { .. }`
    Module(Module),
    /// `static N: T = ..;`
    Static(Static),
    /// `struct N ..`
    Struct(Struct),
    /// `trait N { .. }`
    Trait(Trait),
    /// `type N = ..;`
    TypeAlias(TypeAlias),
    /// `union N { .. }`
    Union(Union),
    /// `use ..;`
    Use(Use),
}

/// An item of an extern block.
#[derive(Debug, Drop)]
pub enum ExternItem {
    /// `fn n(..);`
    Fn(Fn),
    /// `m!(..);`
    MacroCall(MacroCall),
    /// `static N: T;`
    Static(Static),
    /// `type N;`
    TypeAlias(TypeAlias),
}

/// The kinds of items that differ in nothing but the kind: each may have a name and a visibility.
#[derive(Clone, Copy, Debug)]
pub enum PlainKind {
    Enum,
    Fn,
    MacroDef,
    Static,
    Trait,
    TypeAlias,
    Union,
}

/// The node of an item that may have a name and a visibility, and has nothing else of its own.
#[derive(Debug, Drop)]
pub struct NamedNode {
    pub hash: u16,
    pub number: u32,
    pub attrs: Vec<Meta>,
    pub name: Option<Name>,
    pub visibility: Option<Visibility>,
    pub body: String,
}

/// Assembly at the place of an item, which no item tree keeps.
#[derive(Debug, Drop)]
pub struct AsmExpr {
    pub hash: u16,
    pub number: u32,
    pub attrs: Vec<Meta>,
    pub body: String,
}

/// A constant; its name may be `_`, which is none.
pub type Const = NamedNode;

/// An enum.
pub type Enum = NamedNode;

/// An extern block, with a list of items or without one.
#[derive(Debug, Drop)]
pub struct ExternBlock {
    pub hash: u16,
    pub number: u32,
    pub attrs: Vec<Meta>,
    pub items: Option<Vec<ExternItem>>,
    pub body: String,
}

/// An extern crate; the name may be `self`.
#[derive(Debug, Drop)]
pub struct ExternCrate {
    pub hash: u16,
    pub number: u32,
    pub attrs: Vec<Meta>,
    pub name: Option<Name>,
    pub visibility: Option<Visibility>,
    pub rename: Option<Rename>,
    pub body: String,
}

/// A function.
pub type Fn = NamedNode;

/// An impl, of a trait or inherent.
#[derive(Debug, Drop)]
pub struct Impl {
    pub hash: u16,
    pub number: u32,
    pub attrs: Vec<Meta>,
    pub is_trait_impl: bool,
    pub body: String,
}

/// A macro call at the place of an item.
#[derive(Debug, Drop)]
pub struct MacroCall {
    pub hash: u16,
    pub number: u32,
    pub attrs: Vec<Meta>,
    pub path: Option<PathNode>,
    pub expand_to: ExpandTo,
    pub ctxt: SyntaxContext,
    pub body: String,
}

/// A macro 2.0, as in `macro m() {}`.
pub type MacroDef = NamedNode;

/// A `macro_rules!` macro, as in `macro_rules! m {}`.
#[derive(Debug, Drop)]
pub struct MacroRules {
    pub hash: u16,
    pub number: u32,
    pub attrs: Vec<Meta>,
    pub name: Option<Name>,
    pub body: String,
}

/// A module: with a semicolon, with a list of items, or with neither.
#[derive(Debug, Drop)]
#[cycle(ast)]
pub struct Module {
    pub hash: u16,
    pub number: u32,
    pub attrs: Vec<Meta>,
    pub name: Option<Name>,
    pub visibility: Option<Visibility>,
    pub semicolon: bool,
    pub items: Option<Vec<Item>>,
    pub body: String,
}

/// A static.
pub type Static = NamedNode;

/// A struct.
#[derive(Debug, Drop)]
pub struct Struct {
    pub hash: u16,
    pub number: u32,
    pub attrs: Vec<Meta>,
    pub name: Option<Name>,
    pub visibility: Option<Visibility>,
    pub kind: StructKind,
    pub body: String,
}

/// How the fields of a struct are written.
#[derive(Debug, Drop)]
pub enum StructKind {
    /// `{ a: A, b: B }`
    Record,
    /// `(A, B);`
    Tuple(Vec<TupleField>),
    /// `;`
    Unit,
}

/// A field of a tuple struct.
#[derive(Debug, Drop)]
pub struct TupleField {
    pub visibility: Option<Visibility>,
}

/// A trait.
pub type Trait = NamedNode;

/// A type alias.
pub type TypeAlias = NamedNode;

/// A union.
pub type Union = NamedNode;

/// A use.
#[derive(Debug, Drop)]
pub struct Use {
    pub hash: u16,
    pub number: u32,
    pub attrs: Vec<Meta>,
    pub visibility: Option<Visibility>,
    pub use_tree: Option<UseTree>,
    pub body: String,
}

/// A use tree: a path, a star, a rename and a list of use trees, each of them written or not.
#[derive(Debug, Drop)]
pub struct UseTree {
    pub path: Option<PathNode>,
    pub star: bool,
    pub rename: Option<Rename>,
    pub list: Option<Vec<UseTree>>,
}

/// A rename, to a name or to `_`.
#[derive(Debug, Drop)]
pub struct Rename {
    pub name: Option<Name>,
}

/// A visibility as it is written.
#[derive(Debug, Drop)]
pub enum Visibility {
    /// `pub`
    Pub,
    /// `pub(crate)`
    PubCrate,
    /// `pub(super)`
    PubSuper,
    /// `pub(self)`
    PubSelf,
    /// `pub(in path)`
    InPath(PathNode),
}

/// A path as it is written.
#[derive(Debug, Drop, PartialEq, Eq)]
pub enum PathNode {
    /// One with a meaning as a module path.
    Readable(ModPath),
    /// One without, as `a<b>::c`.
    Unreadable,
}
