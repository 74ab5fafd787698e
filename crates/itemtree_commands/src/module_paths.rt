//! The paths of the modules of a crate.
ghost use Rattle.std.specs.Prelude.{◌≡◌, IfOk, OnOk, fold, map, string_bytes};
ghost use Rattle.itemtree_commands.specs.Inner.{pathed_view};
ghost use Rattle.itemtree_commands.specs.ModuleLists as spec;

use hir_input::{Edition, Name};
use module_tree::{ModuleData, ModuleId};
use std::alloc::{AllocError, Global};

/// A module, and its path.
#[derive(Drop)]
pub(crate) struct PathedModule<'a> {
    pub(crate) module_data: &'a ModuleData,
    pub(crate) path: String,
}

/// A path of modules, and a name behind it.
pub(crate) fn inner_path(
    alloc: Global,
    edition: &Edition,
    around: &str,
    name: &Name,
) -> Result<String, AllocError>
    ensures { IfOk result (λ path. string_bytes path
        ≡ spec.inner_path edition.now.reserved.items around.now name.now) }
{
    let mut path = String::from_str(alloc, around)?;
    path.push_str("::")?;
    let name = name.display(edition);
    write!(path, "{name}")?;
    Ok(path)
}

/// The path of a module among these.
pub(crate) fn known_path<'p>(pathed: &'p [PathedModule<'_>], id: ModuleId) -> &'p str
    ensures { result.now ≡ spec.known_module_path (map pathed_view pathed.now) id }
{
    match pathed.get(id.0) {
        Some(known) => known.path.as_str(),
        None => "",
    }
}

/// The path of a module behind these.
fn module_path(
    alloc: Global,
    edition: &Edition,
    pathed: &[PathedModule<'_>],
    module_data: &ModuleData,
) -> Result<String, AllocError>
    ensures { IfOk result (λ path. string_bytes path ≡ spec.module_path edition.now.reserved.items
        (map pathed_view pathed.now) module_data.now.parent module_data.now.name) }
{
    let (Some(parent), Some(name)) = (module_data.parent, &module_data.name) else {
        return String::from_str(alloc, "crate");
    };
    inner_path(alloc, edition, known_path(pathed, parent), name)
}

/// Adds a module, with its path.
fn push_pathed<'a>(
    alloc: Global,
    edition: &Edition,
    module_data: &'a ModuleData,
    pathed: &mut Vec<PathedModule<'a>>,
) -> Result<(), AllocError>
    ensures { OnOk result (map pathed_view pathed.new.items
        ≡ spec.with_pathed edition.now.reserved.items (map pathed_view pathed.old.items) module_data.now) }
{
    let path = module_path(alloc, edition, pathed.as_slice(), module_data)?;
    pathed.push(PathedModule { module_data, path })?;
    Ok(())
}

/// Adds modules, each with its path.
fn push_pathed_modules<'a>(
    alloc: Global,
    edition: &Edition,
    modules: &'a [ModuleData],
    pathed: &mut Vec<PathedModule<'a>>,
) -> Result<(), AllocError>
    ensures { let add = spec.with_pathed edition.now.reserved.items in
        OnOk result (map pathed_view pathed.new.items ≡ fold add (map pathed_view pathed.old.items) modules.now) }
{
    for data in modules {
        push_pathed(alloc, edition, data, pathed)?;
    }
    Ok(())
}

/// The modules, each with its path.
pub(crate) fn pathed_modules<'a>(
    alloc: Global,
    edition: &Edition,
    modules: &'a [ModuleData],
) -> Result<Vec<PathedModule<'a>>, AllocError>
    ensures { IfOk result (λ v. map pathed_view v.items
        ≡ spec.pathed_modules edition.now.reserved.items modules.now) }
{
    let mut pathed = Vec::new(alloc);
    push_pathed_modules(alloc, edition, modules, &mut pathed)?;
    Ok(pathed)
}
