//! What imports lead to, where it is declared.
ghost use Rattle.std.specs.Prelude.{◌≡◌, ◌++◌, IfOk, OnOk, flat_map, map, option_map, slice_get};
ghost use Rattle.std.specs.Option.{option_to_list};
ghost use Rattle.itemtree_commands.specs.ImportTargets as spec;
ghost use Rattle.itemtree_commands.specs.Inner.{written_view, pathed_view, target_view};
ghost use Rattle.itemtree_commands.specs.ModuleLists.{declaration, file_path};

use crate::declarations::{Declared, DeclaredItems};
use crate::module_lists::{TOP, declaration, declaring_file, file_of};
use crate::module_paths::{PathedModule, known_path};
use def_map::Target;
use hir_input::{AstIdKind, FileAstId};
use line_index::Position;
use module_tree::{ModuleData, ModuleId, ModuleOrigin};
use source_listing::push_segment;
use source_rows::item_word;
use std::alloc::{AllocError, Global};

/// What an import leads to: the word of its kind, its path in the crate, and where it is declared.
#[derive(Drop)]
pub(crate) struct PlacedTarget<'a> {
    pub(crate) kind: &'static str,
    pub(crate) path: String,
    pub(crate) file: &'a str,
    pub(crate) position: Option<Position>,
}

/// The path of a file, by its number.
pub(crate) fn path_in<'f>(files: &[DeclaredItems<'f>], file: u32) -> &'f str
    ensures { result.now ≡ file_path files.now file }
{
    match files.get(file as usize) {
        Some(file) => file.path(),
        None => "",
    }
}

/// The item of an id in the file of a number.
fn item_in<'f>(files: &[DeclaredItems<'f>], file: u32, id: FileAstId) -> Option<Declared<'f>>
    ensures { option_map written_view result ≡ spec.item_of_files files.now file id }
{
    files.get(file as usize)?.find(id)
}

fn name_of<'a>(found: Option<Declared<'a>>) -> &'a str
    ensures { result.now ≡ spec.item_name (option_map written_view found.entry) }
{
    match found {
        Some(declared) => declared.name,
        None => "",
    }
}

fn spot_of(found: Option<Declared<'_>>) -> Option<Position>
    ensures { result ≡ spec.item_spot (option_map written_view found.entry) }
{
    match found {
        Some(declared) => Some(declared.position),
        None => None,
    }
}

/// Where a module is declared in a file; the root stands at the top of its own.
fn module_spot(files: &[DeclaredItems<'_>], file: u32, origin: ModuleOrigin) -> Option<Position>
    ensures { result ≡ spec.module_spot files.now file (declaration origin) }
{
    match declaration(origin) {
        Some(id) => spot_of(item_in(files, file, id)),
        None => Some(TOP),
    }
}

fn module_target<'f>(
    alloc: Global,
    modules: &[ModuleData],
    files: &[DeclaredItems<'f>],
    one: &PathedModule<'_>,
) -> Result<PlacedTarget<'f>, AllocError>
    ensures { let target = spec.placed_module files.now modules.now (pathed_view one.now) in
        IfOk result (λ x. target_view x ≡ target) }
{
    let file = declaring_file(modules, one.module_data);
    Ok(PlacedTarget {
        kind: item_word(AstIdKind::Module),
        path: String::from_str(alloc, &one.path)?,
        file: path_in(files, file),
        position: module_spot(files, file, one.module_data.origin),
    })
}

/// An item behind the path of the module that it is written in.
fn item_target<'f>(
    alloc: Global,
    modules: &[ModuleData],
    pathed: &[PathedModule<'_>],
    files: &[DeclaredItems<'f>],
    parent: ModuleId,
    id: FileAstId,
) -> Result<PlacedTarget<'f>, AllocError>
    ensures { let target = spec.placed_item files.now modules.now (map pathed_view pathed.now) parent id in
        IfOk result (λ x. target_view x ≡ target) }
{
    let file = file_of(modules, parent);
    let found = item_in(files, file, id);
    let mut path = String::from_str(alloc, known_path(pathed, parent))?;
    push_segment(name_of(found), &mut path)?;
    Ok(PlacedTarget {
        kind: item_word(id.kind),
        path,
        file: path_in(files, file),
        position: spot_of(found),
    })
}

/// The module of a place, with its path.
fn module_at<'p, 'q>(pathed: &'p [PathedModule<'q>], id: ModuleId) -> Option<&'p PathedModule<'q>>
    ensures { option_map (λ one. pathed_view one.now) result ≡ slice_get (map pathed_view pathed.now) id.0 }
{
    pathed.get(id.0)
}

/// Adds a module, if there is one.
fn push_module<'f>(
    alloc: Global,
    modules: &[ModuleData],
    files: &[DeclaredItems<'f>],
    one: Option<&PathedModule<'_>>,
    found: &mut Vec<PlacedTarget<'f>>,
) -> Result<(), AllocError>
    ensures { let one = option_map (λ one. pathed_view one.now) one.entry in
        let targets = option_to_list (option_map (spec.placed_module files.now modules.now) one) in
        OnOk result (map target_view found.new.items ≡ map target_view found.old.items ++ targets) }
{
    let Some(one) = one else {
        return Ok(());
    };
    found.push(module_target(alloc, modules, files, one)?)?;
    Ok(())
}

/// Adds what an import leads to, if that is seen.
fn push_target<'f>(
    alloc: Global,
    modules: &[ModuleData],
    pathed: &[PathedModule<'_>],
    files: &[DeclaredItems<'f>],
    target: Target,
    found: &mut Vec<PlacedTarget<'f>>,
) -> Result<(), AllocError>
    ensures { let targets = spec.placed_target files.now modules.now (map pathed_view pathed.now) target in
        OnOk result (map target_view found.new.items ≡ map target_view found.old.items ++ targets) }
{
    match target {
        Target::Module(id) => push_module(alloc, modules, files, module_at(pathed, id), found),
        Target::Item { module, item } => {
            found.push(item_target(alloc, modules, pathed, files, module, item)?)?;
            Ok(())
        }
        Target::Unseen => Ok(()),
    }
}

/// What an import leads to, as far as that is seen.
pub(crate) fn placed_targets<'f>(
    alloc: Global,
    modules: &[ModuleData],
    pathed: &[PathedModule<'_>],
    files: &[DeclaredItems<'f>],
    targets: &[Target],
) -> Result<Vec<PlacedTarget<'f>>, AllocError>
    ensures { let placed = spec.placed_target files.now modules.now (map pathed_view pathed.now) in
        IfOk result (λ found. map target_view found.items ≡ flat_map placed targets.now) }
{
    let mut found = Vec::new(alloc);
    for target in targets {
        push_target(alloc, modules, pathed, files, *target, &mut found)?;
    }
    Ok(found)
}
