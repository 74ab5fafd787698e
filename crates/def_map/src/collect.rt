//! The rows of a crate.
ghost use Rattle.std.specs.Prelude.{◌≡◌, ◌<◌, ◌≤◌, ◌^◌, IfNone, IfOk, IfSome, IsErrOf, OnOk, false, length, map, true};
ghost use Rattle.def_map.specs.declared.collect.CollectError.TheVariants.{OutOfMemory, OutOfOrder, TooManyModules};
ghost use Rattle.def_map.specs.Laws.{IsWhole};
ghost use Rattle.def_map.specs.ModuleOrder as order;
ghost use Rattle.def_map.specs.Tables as spec;
ghost use Rattle.def_map.specs.Views.{crate_row_view, sources_view};
ghost use Rattle.module_tree.specs.Modules.{most_modules};

use crate::ctx::Ctx;
use crate::files::rows_with;
use crate::module_index::index_modules;
use crate::push::Row;
use crate::sources::CrateSources;
use module_tree::{MOST_MODULES, ModuleData};
use std::alloc::{AllocError, AllocFailed, Global};
use thiserror::Error;

/// Why a crate has no rows.
#[derive(Clone, Copy, Debug, PartialEq, Eq, Error)]
pub enum CollectError {
    /// The allocator refused memory.
    #[error("out of memory")]
    OutOfMemory,
    /// More than `MOST_MODULES`.
    #[error("too many modules")]
    TooManyModules,
    /// A module does not stand behind the one that it is in.
    #[error("modules out of order")]
    OutOfOrder,
}

impl From<AllocError> for CollectError {
    ghost use Rattle.std.specs.Prelude.{◌≡◌};
    ghost use Rattle.def_map.specs.declared.collect.CollectError.TheVariants.{OutOfMemory};

    ghost from_gives = { λ _ e. e ≡ OutOfMemory };

    fn from(_refused: AllocError) -> CollectError {
        CollectError::OutOfMemory
    }
}

impl<T: Drop> From<AllocFailed<T>> for CollectError {
    ghost use Rattle.std.specs.Prelude.{◌≡◌};
    ghost use Rattle.def_map.specs.declared.collect.CollectError.TheVariants.{OutOfMemory};

    ghost from_gives = { λ _ e. e ≡ OutOfMemory };

    fn from(_refused: AllocFailed<T>) -> CollectError {
        CollectError::OutOfMemory
    }
}

/// The rows of a crate, and the parent of each module.
#[derive(Drop)]
pub(crate) struct Collected<'t> {
    pub(crate) parents: Vec<Option<u32>>,
    pub(crate) rows: Vec<Row<'t>>,
}

/// The parent of a module at a place, if it stands behind it.
fn parent_behind(found: &ModuleData, at: usize) -> Option<Option<u32>>
    requires { at < 2 ^ 32 }
    ensures value { IfSome result (λ parent. parent ≡ spec.parent_number found.now) }
    ensures some { IfSome result (λ parent. order.is_parent_behind at (spec.parent_number found.now) ≡ true) }
    ensures none { IfNone result (order.is_parent_behind at (spec.parent_number found.now) ≡ false) }
{
    let Some(parent) = found.parent else {
        if at == 0 {
            return Some(None);
        }
        return None;
    };
    if parent.0 < at {
        return Some(Some(parent.0 as u32));
    }
    None
}

/// The parent of each module.
fn parents_of(alloc: Global, modules: &[ModuleData]) -> Result<Vec<Option<u32>>, CollectError>
    requires { length modules.now < 2 ^ 32 }
    ensures value { IfOk result (λ list. list.items ≡ spec.parents_of modules.now) }
    ensures ordered { OnOk result (order.are_behind 0 (spec.parents_of modules.now) ≡ true) }
    ensures unordered { IsErrOf result OutOfOrder → order.are_behind 0 (spec.parents_of modules.now) ≡ false }
    ensures few { IsErrOf result TooManyModules → most_modules < length modules.now }
{
    let mut list = Vec::new(alloc);
    for at in 0..modules.len() {
        let Some(parent) = parent_behind(&modules[at], at) else {
            return Err(CollectError::OutOfOrder);
        };
        list.push(parent)?;
    }
    Ok(list)
}

fn rows_of<'t>(
    alloc: Global,
    parents: &[Option<u32>],
    sources: CrateSources<'t>,
) -> Result<Vec<Row<'t>>, AllocError>
    requires { length sources.modules.now < 2 ^ 32 }
    ensures { IfOk result (λ rows. map crate_row_view rows.items
        ≡ spec.rows_with parents.now (sources_view sources.entry)) }
{
    let index = index_modules(alloc, sources.modules)?;
    let ctx = Ctx {
        alloc,
        parents,
        sources,
        index: &index,
    };
    rows_with(&ctx)
}

/// The rows of a crate, from its modules and the trees of its files.
///
/// # Errors
///
/// `TooManyModules` only of more than `MOST_MODULES`, `OutOfOrder` only if a module does not stand behind the one that
/// it is in (those of a `ModuleTree` do), and else only if memory runs out.
pub(crate) fn collect<'t>(
    alloc: Global,
    sources: &CrateSources<'t>,
) -> Result<Collected<'t>, CollectError>
    ensures parents { IfOk result (λ c. c.parents.items ≡ spec.parents_of sources.now.modules.now) }
    ensures rows { IfOk result (λ c. map crate_row_view c.rows.items ≡ spec.rows_of (sources_view sources.now)) }
    ensures whole { OnOk result (0 < length sources.now.modules.now
        → IsWhole (spec.crate_of (sources_view sources.now))) }
    ensures few { OnOk result (length sources.now.modules.now ≤ most_modules) }
    ensures ordered { OnOk result (order.are_behind 0 (spec.parents_of sources.now.modules.now) ≡ true) }
    ensures many { IsErrOf result TooManyModules → most_modules < length sources.now.modules.now }
    ensures unordered { IsErrOf result OutOfOrder
        → order.are_behind 0 (spec.parents_of sources.now.modules.now) ≡ false }
{
    let sources = *sources;
    if sources.modules.len() > MOST_MODULES {
        return Err(CollectError::TooManyModules);
    }
    let parents = parents_of(alloc, sources.modules)?;
    let rows = rows_of(alloc, &parents, sources)?;
    Ok(Collected { parents, rows })
}
