//! Modules by the `mod` items that they come from.
ghost use Rattle.std.specs.Prelude.{ℕ, Some, None, ◌≡◌, ◌<◌, ◌^◌, if◌then◌else◌, IfOk, OnOk, length};
ghost use Rattle.std.specs.Option.{option_or};
ghost use Rattle.hir_input.specs.declared.ids.FileAstId.{FileAstId as Id};
ghost use Rattle.def_map.specs.Inner.Modules as spec;
ghost use Rattle.def_map.specs.Inner.Modules.{number_at, IsModuleIndex};
ghost use Rattle.def_map.specs.Tables.{is_module_of, origin_id};

use hir_input::FileAstId;
use module_tree::{ModuleData, ModuleOrigin};
use std::alloc::{AllocError, Global};
use std::collections::HashMap;

/// What a module is known by: the module that it stands in, and the id of its `mod` there.
#[derive(Clone, Copy, PartialEq, Eq, Hash)]
struct ModuleKey {
    parent: usize,
    hash: u16,
    number: u32,
}

/// The first module of each `mod`.
#[derive(Drop)]
pub(crate) struct ModuleIndex {
    numbers: HashMap<ModuleKey, u32>,
}

impl ModuleIndex {
    /// The module of a `mod` in a module.
    pub(crate) fn module_of(&self, at: u32, id: FileAstId) -> Option<u32>
        ensures { result ≡ number_at self.now.numbers at id }
    {
        let key = ModuleKey {
            parent: at as usize,
            hash: id.hash,
            number: id.number,
        };
        self.numbers.get(&key).copied()
    }
}

fn origin_id(origin: ModuleOrigin) -> Option<FileAstId>
    ensures { result ≡ origin_id origin }
{
    match origin {
        ModuleOrigin::CrateRoot => None,
        ModuleOrigin::File { declaration } => Some(declaration),
        ModuleOrigin::Inline { definition } => Some(definition),
    }
}

fn key_of(found: &ModuleData) -> Option<ModuleKey>
    ensures { result ≡ spec.mod_key_of found.now }
{
    let parent = found.parent?;
    let id = origin_id(found.origin)?;
    Some(ModuleKey {
        parent: parent.0,
        hash: id.hash,
        number: id.number,
    })
}

// Puts the number of a module, unless another has its `mod`.
fn put_module(
    found: &ModuleData,
    number: u32,
    numbers: &mut HashMap<ModuleKey, u32>,
) -> Result<(), AllocError>
    ensures { OnOk result ((at : ℕ) (id : Id) → number_at numbers.new at id
        ≡ option_or (number_at numbers.old at id) (if is_module_of at id found.now then Some number else None)) }
{
    let Some(key) = key_of(found) else {
        return Ok(());
    };
    if numbers.contains_key(&key) {
        return Ok(());
    }
    numbers.insert(key, number).map_err(AllocError::from)?;
    Ok(())
}

/// Modules by their `mod` items.
pub(crate) fn index_modules(
    alloc: Global,
    modules: &[ModuleData],
) -> Result<ModuleIndex, AllocError>
    requires { length modules.now < 2 ^ 32 }
    ensures { IfOk result (IsModuleIndex modules.now) }
{
    let mut numbers = HashMap::new(alloc);
    for number in 0..modules.len() {
        put_module(&modules[number], number as u32, &mut numbers)?;
    }
    Ok(ModuleIndex { numbers })
}
