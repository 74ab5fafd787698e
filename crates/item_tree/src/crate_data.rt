//! A crate.

use hir_input::{CfgOptions, HirFileId, Meta};

/// A crate, as far as its trees depend on it. In place of rust-analyzer's inputs of a `Crate`.
#[derive(Debug, Drop)]
pub struct CrateData {
    /// The file of the crate's root module.
    pub root: HirFileId,
    /// The options that are set, under which the attributes of all its files are collected.
    pub cfg: CfgOptions,
    /// The crate's own attributes, which stand before those of its root file.
    pub attrs: Vec<Meta>,
}
