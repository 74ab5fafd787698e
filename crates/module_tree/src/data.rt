//! Modules, and what is found instead of them.

use hir_input::{FileAstId, Name};
use std::alloc::{AllocError, AllocFailed};
use thiserror::Error;

/// The most modules of a crate, its root among them.
pub const MOST_MODULES: usize = 1 << 20;

/// Which `mod` items are followed.
#[derive(Clone, Copy, Debug, PartialEq, Eq)]
pub enum ModuleChoice {
    /// Those that no cfg disables, and whose files none disables as a whole.
    Enabled,
    /// Each, to find the files that no `mod` names.
    All,
}

/// Why a crate has no `ModuleTree`. rust-analyzer has no such errors.
#[derive(Clone, Copy, Debug, PartialEq, Eq, Error)]
pub enum ModuleTreeError {
    /// The allocator refused memory.
    #[error("out of memory")]
    OutOfMemory,
    /// More than `MOST_MODULES`.
    #[error("too many modules")]
    TooManyModules,
}

impl From<AllocError> for ModuleTreeError {
    ghost use Rattle.std.specs.Prelude.{◌≡◌};
    ghost use Rattle.module_tree.specs.declared.data.ModuleTreeError.TheVariants.{OutOfMemory};

    ghost from_gives = { λ _ e. e ≡ OutOfMemory };

    fn from(_refused: AllocError) -> ModuleTreeError {
        ModuleTreeError::OutOfMemory
    }
}

impl<T: Drop> From<AllocFailed<T>> for ModuleTreeError {
    ghost use Rattle.std.specs.Prelude.{◌≡◌};
    ghost use Rattle.module_tree.specs.declared.data.ModuleTreeError.TheVariants.{OutOfMemory};

    ghost from_gives = { λ _ e. e ≡ OutOfMemory };

    fn from(_refused: AllocFailed<T>) -> ModuleTreeError {
        ModuleTreeError::OutOfMemory
    }
}

/// The place of a module in its `ModuleTree`. rust-analyzer's `ModuleId`.
#[derive(Clone, Copy, Debug, PartialEq, Eq)]
pub struct ModuleId(pub usize);

/// Where a module comes from. rust-analyzer's `ModuleOrigin`.
#[derive(Clone, Copy, Debug, PartialEq, Eq)]
pub enum ModuleOrigin {
    /// It is the root file.
    CrateRoot,
    /// `mod n;`
    File { declaration: FileAstId },
    /// `mod n { .. }`
    Inline { definition: FileAstId },
}

/// A module. rust-analyzer's `ModuleData`.
#[derive(Debug, Drop)]
pub struct ModuleData {
    /// The module that it stands in; the root has none.
    pub parent: Option<ModuleId>,
    /// The root has none.
    pub name: Option<Name>,
    /// Its `mod` item stands in the file of its parent.
    pub origin: ModuleOrigin,
    /// The number of the file in which its items stand.
    pub file: u32,
}

/// Why a `mod` has no module.
#[derive(Clone, Copy, Debug, PartialEq, Eq)]
pub enum UnresolvedReason {
    /// At none of the paths is a file.
    NoFile,
    /// At both paths is one.
    TwoFiles,
    /// The file is one of those around the `mod`.
    Circle,
    /// As many files as may be stand around it: the root file and 128 more.
    TooDeep,
}

/// A `mod` without a module. rust-analyzer's `DefDiagnosticKind::UnresolvedModule`.
#[derive(Debug, Drop)]
pub struct UnresolvedModule {
    /// The module that it stands in.
    pub parent: ModuleId,
    pub name: Name,
    pub declaration: FileAstId,
    pub reason: UnresolvedReason,
    /// The paths that were looked for.
    pub candidates: Vec<String>,
}

/// The modules of a crate, as far as they are known: `MOST_MODULES` at most. When more is known, what was found stays,
/// but the id of a module may be another.
#[derive(Debug, Drop)]
pub struct ModuleTree {
    /// The root first, and each module before those in it, in the order in which they are written.
    pub modules: Vec<ModuleData>,
    /// The `mod` items without a module, in that order.
    pub unresolved: Vec<UnresolvedModule>,
    /// The paths that are to be looked up, in order, for modules of which nothing can be told before; a path may
    /// stand here more than once.
    pub wanted: Vec<String>,
}
