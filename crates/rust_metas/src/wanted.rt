//! Which metas are wanted.

/// Which metas are kept of those that are read.
#[derive(Clone, Copy, Debug, PartialEq, Eq)]
pub enum WantedMetas {
    /// All of them.
    All,
    /// Those that do not document: all but those of the one name `doc`.
    Undocumented,
    /// Those that tell a condition, or in which one may stand: `cfg(..)`, `cfg_attr(..)` and `unsafe(..)`.
    Conditions,
}
