//! What `check --crate` tells of imports.
ghost use Rattle.std.specs.Prelude.{◌≡◌, ◌++◌, IfOk, OnOk, flat_map, map, string_bytes, unwrap_or, option_map};
ghost use Rattle.itemtree_commands.specs.ImportChecks as spec;
ghost use Rattle.itemtree_commands.specs.ModuleLists.{placed_text};

use crate::crate_file::{CrateFile, tree_position_of};
use crate::module_lists::{file_of, file_path, finders, push_problem};
use def_map::{ResolvedImport, Verdict};
use line_index::Position;
use module_tree::{ModuleData, ModuleTree};
use source_listing::PlaceFinder;
use std::alloc::{AllocError, Global};

fn unresolved_words(is_private: bool) -> &'static str
    ensures { result.now ≡ spec.unresolved_words is_private }
{
    if is_private {
        "this import names what it does not see"
    } else {
        "this import leads to nothing"
    }
}

/// What is wrong with an import, if anything is.
fn fault_words(verdict: Verdict, is_private: bool) -> Option<&'static str>
    ensures { option_map (λ words. words.now) result ≡ spec.fault_words verdict is_private }
{
    match verdict {
        Verdict::Unresolved => Some(unresolved_words(is_private)),
        Verdict::TooWide => Some("what this import names is seen by fewer than the import"),
        Verdict::Nameless => Some("this import has no name"),
        Verdict::Unknown | Verdict::Resolved => None,
    }
}

/// Where an import of a file stands.
pub(crate) fn import_position(
    finders: &mut [PlaceFinder<'_>],
    file: u32,
    import: &ResolvedImport,
) -> Option<Position>
    ensures position { result ≡ spec.import_position finders.old file import.now }
    ensures same { finders.new ≡ finders.old }
{
    let place = file as usize;
    if place < finders.len() {
        tree_position_of(&mut finders[place], import.item, import.import.index)
    } else {
        None
    }
}

/// The line of an import, if anything is wrong with it.
fn push_import(
    is_colored: bool,
    modules: &[ModuleData],
    files: &[CrateFile],
    finders: &mut [PlaceFinder<'_>],
    import: &ResolvedImport,
    out: &mut String,
) -> Result<(), AllocError>
    ensures text { let line = spec.placed_line is_colored modules.now files.now finders.old import.now in
        OnOk result (string_bytes out.new ≡ string_bytes out.old ++ line) }
    ensures same { finders.new ≡ finders.old }
{
    let Some(words) = fault_words(import.verdict, import.is_private) else {
        return Ok(());
    };
    let file = file_of(modules, import.module);
    let position = import_position(finders, file, import);
    push_problem(is_colored, file_path(files, file), position, words, out)
}

/// A line for each import of a crate that is wrong whatever macros and other crates hold: where its use tree stands,
/// and why; in colours or not.
///
/// # Errors
///
/// Only if memory runs out.
pub fn wrong_imports(
    alloc: Global,
    imports: &[ResolvedImport],
    tree: &ModuleTree,
    files: &[CrateFile],
    is_colored: bool,
) -> Result<String, AllocError>
    ensures { let line = spec.wrong_import_line is_colored tree.now.modules.items files.now in
        IfOk result (λ text. string_bytes text ≡ flat_map line imports.now) }
{
    let modules = tree.modules.as_slice();
    let mut finders = finders(alloc, files)?;
    let mut out = String::new(alloc);
    for import in imports {
        push_import(
            is_colored,
            modules,
            files,
            finders.as_mut_slice(),
            import,
            &mut out,
        )?;
    }
    Ok(out)
}
