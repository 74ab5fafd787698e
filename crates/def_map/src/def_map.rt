//! What is told of the imports of a crate.
ghost use Rattle.std.specs.Prelude.{◌≡◌, ◌++◌, ◌<◌, IfErr, IfOk, OnOk, length, map};
ghost use Rattle.std.specs.Vec.Iter.{into_iter_items};
ghost use Rattle.def_map.specs.CrateView.{rows_view};
ghost use Rattle.def_map.specs.Inner.Told as spec;
ghost use Rattle.def_map.specs.Inner.Told.{AreAnswers, collected_crate, resolved_answer};
ghost use Rattle.def_map.specs.Laws.{IsWhole};
ghost use Rattle.def_map.specs.Refused.{AreImportsRefused, IsCrateRefused, IsCrateSmall, IsSmall};
ghost use Rattle.def_map.specs.Resolved.{AreResolved};
ghost use Rattle.def_map.specs.Tables.{crate_of};
ghost use Rattle.def_map.specs.Views.{crate_row_view, sources_view};

use crate::closure::{ClosureError, find_closure};
use crate::collect::{CollectError, Collected, collect};
use crate::gather::crate_rows;
use crate::lower::lower_crate;
use crate::numbers::{NumbersError, number_crate};
use crate::push::Row;
use crate::rows::CrateRows;
use crate::seeds::{SeedsError, find_seeds};
use crate::sources::{CrateSources, Manifest};
use crate::targets::Target;
use crate::told::{Told, tell_imports};
use crate::verdict::Verdict;
use hir_input::FileAstId;
use module_tree::ModuleId;
use std::alloc::{AllocError, AllocFailed, Global};
use std::vec::IntoIter;
use thiserror::Error;
use tree_walk::Listed;

/// Why nothing is told of the imports of a crate.
#[derive(Clone, Copy, Debug, PartialEq, Eq, Error)]
pub enum DefMapError {
    /// The allocator refused memory.
    #[error("out of memory")]
    OutOfMemory,
    /// More than `module_tree::MOST_MODULES`.
    #[error("too many modules")]
    TooManyModules,
    /// A module does not stand behind the one that it is in.
    #[error("modules out of order")]
    OutOfOrder,
    /// More names of paths than there are numbers.
    #[error("too many names")]
    TooManyNames,
    /// More items of such names than there are numbers.
    #[error("too many items")]
    TooManyItems,
    /// More imports than there are numbers.
    #[error("too many imports")]
    TooManyImports,
    /// More pairs of an import and a `macro_rules` of its name than may be.
    #[error("too many pairs of imports and macros")]
    TooManyPairs,
    /// More than `MOST_FACTS` follow from what the crate declares.
    #[error("too many facts")]
    TooManyFacts,
    /// They meet more often than `MOST_JOINS`.
    #[error("too many joins")]
    TooManyJoins,
}

impl From<AllocError> for DefMapError {
    ghost use Rattle.std.specs.Prelude.{◌≡◌};
    ghost use Rattle.def_map.specs.declared.def_map.DefMapError.TheVariants.{OutOfMemory};

    ghost from_gives = { λ _ e. e ≡ OutOfMemory };

    fn from(_refused: AllocError) -> DefMapError {
        DefMapError::OutOfMemory
    }
}

impl<T: Drop> From<AllocFailed<T>> for DefMapError {
    ghost use Rattle.std.specs.Prelude.{◌≡◌};
    ghost use Rattle.def_map.specs.declared.def_map.DefMapError.TheVariants.{OutOfMemory};

    ghost from_gives = { λ _ e. e ≡ OutOfMemory };

    fn from(_refused: AllocFailed<T>) -> DefMapError {
        DefMapError::OutOfMemory
    }
}

impl From<CollectError> for DefMapError {
    ghost use Rattle.std.specs.Prelude.{◌≡◌};
    ghost use Rattle.def_map.specs.Refused.{collect_error};

    ghost from_gives = { λ refused e. e ≡ collect_error refused };

    fn from(refused: CollectError) -> DefMapError {
        match refused {
            CollectError::OutOfMemory => DefMapError::OutOfMemory,
            CollectError::TooManyModules => DefMapError::TooManyModules,
            CollectError::OutOfOrder => DefMapError::OutOfOrder,
        }
    }
}

impl From<NumbersError> for DefMapError {
    ghost use Rattle.std.specs.Prelude.{◌≡◌};
    ghost use Rattle.def_map.specs.Refused.{numbers_error};

    ghost from_gives = { λ refused e. e ≡ numbers_error refused };

    fn from(refused: NumbersError) -> DefMapError {
        match refused {
            NumbersError::OutOfMemory => DefMapError::OutOfMemory,
            NumbersError::TooManyNames => DefMapError::TooManyNames,
            NumbersError::TooManyItems => DefMapError::TooManyItems,
        }
    }
}

impl From<SeedsError> for DefMapError {
    ghost use Rattle.std.specs.Prelude.{◌≡◌};
    ghost use Rattle.def_map.specs.Refused.{seeds_error};

    ghost from_gives = { λ refused e. e ≡ seeds_error refused };

    fn from(refused: SeedsError) -> DefMapError {
        match refused {
            SeedsError::OutOfMemory => DefMapError::OutOfMemory,
            SeedsError::TooManyImports => DefMapError::TooManyImports,
            SeedsError::TooManyPairs => DefMapError::TooManyPairs,
        }
    }
}

impl From<ClosureError> for DefMapError {
    ghost use Rattle.std.specs.Prelude.{◌≡◌};
    ghost use Rattle.def_map.specs.Refused.{closure_error};

    ghost from_gives = { λ refused e. e ≡ closure_error refused };

    fn from(refused: ClosureError) -> DefMapError {
        match refused {
            ClosureError::OutOfMemory => DefMapError::OutOfMemory,
            ClosureError::TooManyFacts => DefMapError::TooManyFacts,
            ClosureError::TooManyJoins => DefMapError::TooManyJoins,
        }
    }
}

/// An import of a crate, and what is told of it. rust-analyzer's `Import` has no verdict.
#[derive(Debug, Drop)]
pub struct ResolvedImport {
    pub module: ModuleId,
    /// The `use` that it is written in, in the file of its module.
    pub item: FileAstId,
    /// The import itself, with the number of its use tree there.
    pub import: Listed,
    pub verdict: Verdict,
    /// A name that it asks for stands where it asks, but for others.
    pub is_private: bool,
    /// All that it leads to, each once.
    pub targets: Vec<Target>,
}

/// Adds the import of a row, if it is one, with what is told next.
fn push_resolved(
    row: Row<'_>,
    told: &mut IntoIter<Told>,
    resolved: &mut Vec<ResolvedImport>,
) -> Result<(), AllocError>
    ensures answers { OnOk result (map resolved_answer resolved.new.items ≡ map resolved_answer resolved.old.items
        ++ spec.row_answers (crate_row_view row.entry) (into_iter_items told.old)) }
    ensures left { OnOk result
        (into_iter_items told.new ≡ spec.told_left (crate_row_view row.entry) (into_iter_items told.old)) }
{
    let Row::Imports(used) = row else {
        return Ok(());
    };
    let Some(told) = told.next() else {
        return Ok(());
    };
    resolved.push(ResolvedImport {
        module: ModuleId(used.parent as usize),
        item: used.id,
        import: used.listed,
        verdict: told.verdict,
        is_private: told.is_private,
        targets: told.targets,
    })?;
    Ok(())
}

/// Each import, where it is written, with what is told of it.
fn resolve_rows(
    alloc: Global,
    rows: Vec<Row<'_>>,
    told: Vec<Told>,
) -> Result<Vec<ResolvedImport>, AllocError>
    ensures { IfOk result (λ resolved.
        map resolved_answer resolved.items
        ≡ spec.rows_answers (map crate_row_view rows.entry.items) told.items) }
{
    let mut told = told.into_iter();
    let mut resolved = Vec::new(alloc);
    for row in rows {
        push_resolved(row, &mut told, &mut resolved)?;
    }
    Ok(resolved)
}

/// What is told of each import of a crate.
fn tell_crate(alloc: Global, rows: &CrateRows<'_>) -> Result<Vec<Told>, DefMapError>
    ensures told { IfOk result (λ told. AreAnswers (rows_view rows.now) told.items) }
    ensures few { OnOk result (IsCrateSmall (rows_view rows.now)) }
    ensures refused { IfErr result (IsCrateRefused (rows_view rows.now)) }
{
    let numbers = number_crate(alloc, rows)?;
    let table = lower_crate(alloc, rows, &numbers)?;
    let seeds = find_seeds(alloc, rows, &numbers, &table)?;
    let closure = find_closure(alloc, &table, &seeds)?;
    let told = tell_imports(alloc, rows, &numbers, &table, &closure)?;
    Ok(told)
}

/// What is told of the imports that rows have.
fn tell_rows(
    alloc: Global,
    collected: &Collected<'_>,
    manifest: &Manifest,
) -> Result<Vec<Told>, DefMapError>
    ensures told { IfOk result (λ told. AreAnswers (collected_crate collected.now manifest.now) told.items) }
    ensures few { OnOk result (IsCrateSmall (collected_crate collected.now manifest.now)) }
    ensures refused { IfErr result (IsCrateRefused (collected_crate collected.now manifest.now)) }
{
    let rows = crate_rows(alloc, &collected.parents, manifest, &collected.rows)?;
    tell_crate(alloc, &rows)
}

/// The imports of a crate, in the order in which they are written, and what is told of each.
///
/// # Errors
///
/// `TooManyModules` only of more than `module_tree::MOST_MODULES`, `OutOfOrder` only if a module does not stand behind
/// the one that it is in (those of a `ModuleTree` do), and the others only of more than they name.
pub fn resolve_imports(
    alloc: Global,
    sources: CrateSources<'_>,
) -> Result<Vec<ResolvedImport>, DefMapError>
    ensures resolved { IfOk result (λ imports. AreResolved (sources_view sources.entry) imports.items) }
    ensures whole { OnOk result (0 < length sources.entry.modules.now
        → IsWhole (crate_of (sources_view sources.entry))) }
    ensures few { OnOk result (IsSmall (sources_view sources.entry)) }
    ensures refused { IfErr result (AreImportsRefused (sources_view sources.entry)) }
{
    let collected = collect(alloc, &sources)?;
    let told = tell_rows(alloc, &collected, sources.manifest)?;
    let imports = resolve_rows(alloc, collected.rows, told)?;
    Ok(imports)
}
