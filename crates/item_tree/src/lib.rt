//! The item tree of a file: its items in flat tables under small ids.
#![tactic(auto)]

mod crate_data;
mod fault;
mod items;
mod laws;
mod line;
mod lower;
mod pretty;
mod rows;
mod tree;
mod use_tree;
mod visibility;
mod visibility_set;

pub use crate_data::CrateData;
pub use fault::{EditFault, LowerError};
pub use items::{
    Const, Enum, ExternBlock, ExternCrate, FieldsShape, Function, Impl, ItemTreeNode, Macro2,
    MacroCall, MacroRules, Mod, ModItemId, ModItemKind, ModKind, Static, Struct, StructValueNsCtor,
    Trait, TypeAlias, Union, Use,
};
pub use lower::{lower_block, lower_syntax, lower_use_tree};
pub use tree::{ItemTree, ItemTreeDataStats};
pub use use_tree::{ImportAlias, ImportAliasDisplay, ImportKind, UseTree, UseTreeIdx, UseTreeKind};
pub use visibility::{RawVisibility, RawVisibilityId, VisibilityExplicitness, visibility_from_ast};
