//! Why a manifest has no answer.
ghost use Rattle.std.specs.Prelude.{◌≡◌, IfOk, string_bytes};
ghost use Rattle.cargo_manifest.specs.Inner.{IsReadBehind, IsToldBehind};
ghost use Rattle.cargo_manifest.specs.Readings.{dotted_key};
ghost use Rattle.cargo_manifest.specs.declared.error.ManifestError.TheVariants.{OutOfMemory};

use std::alloc::{AllocError, AllocFailed, Global};
use std::fmt;
use thiserror::Error;

/// What a value of a manifest has to be.
#[derive(Clone, Copy, Debug, PartialEq, Eq)]
pub enum Expected {
    /// A string.
    Text,
    /// `true` or `false`.
    Flag,
    /// A table.
    Table,
    /// A list of tables.
    Tables,
    /// A list of strings.
    Texts,
    /// The year of an edition, as a string, or `{ workspace = true }`.
    Edition,
    /// A version, as a string, or a table.
    Dependency,
}

impl fmt::Display for Expected {
    fn fmt<W: fmt::Write>(&self, f: &mut fmt::Formatter<W>) -> fmt::Result {
        f.write_str(match self {
            Expected::Text => "a string",
            Expected::Flag => "true or false",
            Expected::Table => "a table",
            Expected::Tables => "a list of tables",
            Expected::Texts => "a list of strings",
            Expected::Edition => "2015, 2018, 2021 or 2024, or a table with workspace = true",
            Expected::Dependency => "a version or a table",
        })
    }
}

/// Why a manifest has no answer.
#[derive(Debug, Drop, Error)]
pub enum ManifestError {
    /// The text is no TOML.
    #[error("{0}")]
    NotToml(toml::de::Error),
    /// The text of the workspace is no TOML.
    #[error("in the workspace: {0}")]
    WorkspaceNotToml(toml::de::Error),
    /// There is no `[package]`, as in a manifest that is of a workspace alone.
    #[error("no [package]")]
    NoPackage,
    /// A value is missing, or it is not what it has to be: the first such one, by its keys with dots between them.
    #[error("{keys}: expected {expected}")]
    WrongType { keys: String, expected: Expected },
    /// The allocator refused memory.
    #[error("out of memory")]
    OutOfMemory,
}

impl<T: Drop> From<AllocFailed<T>> for ManifestError {
    ghost from_gives = { λ _ e. e ≡ OutOfMemory };

    fn from(_failed: AllocFailed<T>) -> ManifestError {
        ManifestError::OutOfMemory
    }
}

impl From<AllocError> for ManifestError {
    ghost from_gives = { λ _ e. e ≡ OutOfMemory };

    fn from(_failed: AllocError) -> ManifestError {
        ManifestError::OutOfMemory
    }
}

// Keys with one in front, and a dot between them.
fn dotted_keys(alloc: Global, key: &str, keys: &str) -> Result<String, AllocError>
    ensures { IfOk result (λ all. string_bytes all ≡ dotted_key key.now keys.now) }
{
    let mut all = String::from_str(alloc, key)?;
    if keys.is_empty() {
        return Ok(all);
    }
    all.push_str(".")?;
    all.push_str(keys)?;
    Ok(all)
}

impl ManifestError {
    // The error of a value, told of the table that has it at this key.
    pub(crate) fn in_key(self, alloc: Global, key: &str) -> ManifestError
        ensures { IsToldBehind key.now self result }
    {
        let ManifestError::WrongType { keys, expected } = self else {
            return self;
        };
        match dotted_keys(alloc, key, &keys) {
            Ok(keys) => ManifestError::WrongType { keys, expected },
            Err(_) => ManifestError::OutOfMemory,
        }
    }
}

// What was read of a value, told of the table that has it at this key.
pub(crate) fn in_key<T: Drop>(
    alloc: Global,
    key: &str,
    read: Result<T, ManifestError>,
) -> Result<T, ManifestError>
    ensures { IsReadBehind key.now read result }
{
    match read {
        Ok(read) => Ok(read),
        Err(error) => Err(error.in_key(alloc, key)),
    }
}
