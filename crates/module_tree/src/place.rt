//! Where items stand, and what is added there.
ghost use Rattle.std.specs.Prelude.{◌≡◌, ◌++◌, IfOk, OnOk, map};
ghost use Rattle.module_tree.specs.Inner.{path_texts, dir_view, file_module, inline_module, mod_item_view, place_view};
ghost use Rattle.module_tree.specs.Inner.{AddsAll};
ghost use Rattle.module_tree.specs.Modules as spec;
ghost use Rattle.module_tree.specs.Modules.{nothing_found, with_found, with_module};
ghost use Rattle.module_tree.specs.Views.{modules_view};

use crate::data::{
    MOST_MODULES, ModuleData, ModuleId, ModuleOrigin, ModuleTree, ModuleTreeError,
    UnresolvedModule, UnresolvedReason,
};
use crate::mod_dir::{ModDir, ModItem, candidates, file_at, inline_dir};
use std::alloc::{AllocError, Global};

/// Where items stand.
#[derive(Drop)]
pub(crate) struct Place<'a> {
    pub(crate) module_id: ModuleId,
    pub(crate) file: u32,
    /// The files around them, this one too.
    pub(crate) files: Vec<u32>,
    pub(crate) dir: ModDir<'a>,
}

/// The paths of the files that a `mod` may mean.
fn candidate_paths(
    alloc: Global,
    dir: &ModDir<'_>,
    item: &ModItem<'_>,
) -> Result<Vec<String>, AllocError>
    ensures { IfOk result (λ paths. path_texts paths.items
        ≡ map spec.candidate_path (spec.candidates (dir_view dir.now) (mod_item_view item.now))) }
{
    let candidates = candidates(alloc, dir, item)?;
    let mut paths = Vec::with_capacity(alloc, candidates.len())?;
    for candidate in candidates.as_slice() {
        paths.push(candidate.path.clone()?)?;
    }
    Ok(paths)
}

/// Adds a `mod` without a module.
pub(crate) fn push_unresolved(
    alloc: Global,
    place: &Place<'_>,
    item: &ModItem<'_>,
    reason: UnresolvedReason,
    found: &mut ModuleTree,
) -> Result<(), AllocError>
    ensures { let unresolved = spec.no_module (place_view place.now) (mod_item_view item.now) reason nothing_found in
        OnOk result (modules_view found.new ≡ with_found place.now.module_id unresolved (modules_view found.old)) }
{
    let candidates = candidate_paths(alloc, &place.dir, item)?;
    let name = item.name.clone()?;
    found.unresolved.push(UnresolvedModule {
        parent: place.module_id,
        name,
        declaration: item.id,
        reason,
        candidates,
    })?;
    Ok(())
}

fn push_paths(paths: Vec<String>, all: &mut Vec<String>) -> Result<(), AllocError>
    ensures { OnOk result (path_texts all.new.items ≡ path_texts all.old.items ++ path_texts paths.items) }
{
    for path in paths {
        all.push(path)?;
    }
    Ok(())
}

/// Adds paths that are to be looked up.
pub(crate) fn push_wanted(paths: Vec<String>, found: &mut ModuleTree) -> Result<(), AllocError>
    ensures { OnOk result (modules_view found.new
        ≡ spec.with_wanted (path_texts paths.items) (modules_view found.old)) }
{
    push_paths(paths, &mut found.wanted)
}

/// Adds the module of a `mod`, and gives its id.
fn push_module(
    place: &Place<'_>,
    item: &ModItem<'_>,
    origin: ModuleOrigin,
    file: u32,
    found: &mut ModuleTree,
) -> Result<ModuleId, ModuleTreeError>
    ensures added { let one = spec.module_in place.now.module_id item.now.name.now origin file in
        AddsAll (modules_view found.new) (with_module one (modules_view found.old)) result }
    ensures id { IfOk result (λ id. id ≡ spec.next_id (modules_view found.old)) }
{
    let count = found.modules.len();
    if count >= MOST_MODULES {
        return Err(ModuleTreeError::TooManyModules);
    }
    let name = item.name.clone()?;
    found.modules.push(ModuleData {
        parent: Some(place.module_id),
        name: Some(name),
        origin,
        file,
    })?;
    Ok(ModuleId(count))
}

/// Adds an inline module, and gives where its items stand.
pub(crate) fn push_inline<'a>(
    alloc: Global,
    place: &Place<'a>,
    item: &ModItem<'a>,
    found: &mut ModuleTree,
) -> Result<Place<'a>, ModuleTreeError>
    ensures added { let one = inline_module place.now (mod_item_view item.now) in
        AddsAll (modules_view found.new) (with_module one (modules_view found.old)) result }
    ensures id { IfOk result (λ inside. inside.module_id ≡ spec.next_id (modules_view found.old)) }
    ensures place { let inside = spec.inside_inline (place_view place.now) (mod_item_view item.now) in
        IfOk result (λ p. place_view p ≡ inside) }
{
    let origin = ModuleOrigin::Inline {
        definition: item.id,
    };
    let module_id = push_module(place, item, origin, place.file, found)?;
    Ok(Place {
        module_id,
        file: place.file,
        files: Vec::from_slice(alloc, place.files.as_slice())?,
        dir: inline_dir(alloc, &place.dir, item)?,
    })
}

/// The same of a module that is a file.
pub(crate) fn push_outline<'a>(
    alloc: Global,
    place: &Place<'a>,
    item: &ModItem<'a>,
    file: u32,
    dir: ModDir<'a>,
    found: &mut ModuleTree,
) -> Result<Place<'a>, ModuleTreeError>
    ensures added { let one = file_module place.now (mod_item_view item.now) file in
        AddsAll (modules_view found.new) (with_module one (modules_view found.old)) result }
    ensures id { IfOk result (λ inside. inside.module_id ≡ spec.next_id (modules_view found.old)) }
    ensures place { let inside = spec.inside_file (place_view place.now) file (dir_view dir.entry) in
        IfOk result (λ p. place_view p ≡ inside) }
{
    let origin = ModuleOrigin::File {
        declaration: item.id,
    };
    let module_id = push_module(place, item, origin, file, found)?;
    let mut files = Vec::from_slice(alloc, place.files.as_slice())?;
    files.push(file)?;
    Ok(Place {
        module_id,
        file,
        files,
        dir,
    })
}

/// The root module alone.
pub(crate) fn root_found(alloc: Global, root: u32) -> Result<ModuleTree, AllocError>
    ensures { IfOk result (λ found. modules_view found ≡ spec.root_found root) }
{
    let mut modules = Vec::new(alloc);
    modules.push(ModuleData {
        parent: None,
        name: None,
        origin: ModuleOrigin::CrateRoot,
        file: root,
    })?;
    Ok(ModuleTree {
        modules,
        unresolved: Vec::new(alloc),
        wanted: Vec::new(alloc),
    })
}

/// Where the items of the root file stand.
pub(crate) fn root_place<'a>(
    alloc: Global,
    root: u32,
    path: &'a str,
) -> Result<Place<'a>, AllocError>
    ensures id { IfOk result (λ place. place.module_id ≡ spec.root_id) }
    ensures place { IfOk result (λ place. place_view place ≡ spec.root_place root path.now) }
{
    let mut files = Vec::new(alloc);
    files.push(root)?;
    Ok(Place {
        module_id: ModuleId(0),
        file: root,
        files,
        dir: file_at(alloc, &[], path)?.dir,
    })
}
