//! The modules of a crate, from the trees of its files: which file each `mod` means, and which paths have to be looked
//! up before that can be told.
#![tactic(auto)]

mod data;
mod known;
mod laws;
mod mod_dir;
mod paths;
mod place;
mod resolve;
mod walk;

pub use data::{
    MOST_MODULES, ModuleChoice, ModuleData, ModuleId, ModuleOrigin, ModuleTree, ModuleTreeError,
    UnresolvedModule, UnresolvedReason,
};
pub use known::{KnownFiles, KnownPath};
pub use walk::module_tree;
