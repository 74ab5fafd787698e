//! What is at hand everywhere.
ghost use Rattle.std.specs.Prelude.{◌<◌, ◌^◌, length};
ghost use Rattle.def_map.specs.Inner.Modules.{IsModuleIndex};

use crate::module_index::ModuleIndex;
use crate::sources::CrateSources;
use std::alloc::Global;

/// The allocator, the parent of each module, what the crate is made of, and its modules by their `mod` items.
#[derive(Clone, Copy)]
pub(crate) struct Ctx<'a, 't> {
    pub(crate) alloc: Global,
    pub(crate) parents: &'a [Option<u32>],
    pub(crate) sources: CrateSources<'t>,
    pub(crate) index: &'a ModuleIndex,
    ghost few: { length sources.modules.now < 2 ^ 32 },
    ghost found: { IsModuleIndex sources.modules.now index.now },
}
