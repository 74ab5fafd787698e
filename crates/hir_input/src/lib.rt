//! What an item tree is made from: names, paths, ids, and the syntax that is handed in.
#![tactic(auto)]

pub mod ast;
mod attr;
mod cfg;
mod display;
mod edition;
mod expand_to;
mod ids;
mod laws;
mod mod_path;
mod name;
mod span;
mod use_trees;

pub use attr::{Attr, AttrId, AttrInput, Literal, Meta, TokenTree};
pub use cfg::{CfgAtom, CfgExpr, CfgOptions};
pub use display::{InEdition, ModPathDisplay, NameDisplay, Written};
pub use edition::{Edition, EditionYear};
pub use expand_to::ExpandTo;
pub use ids::{AstIdKind, BlockId, Crate, FileAstId, HirFileId, SyntaxContext};
pub use mod_path::{ModPath, PathKind};
pub use name::Name;
pub use span::Span;
