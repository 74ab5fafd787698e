//! What `itemtree modules` lists of a crate, and what `check --crate` tells of its modules.
ghost use Rattle.std.specs.Prelude.{◌≡◌, ◌++◌, IfOk, OnOk, flat_map, map, string_bytes};
ghost use Rattle.list_forms.specs.Colors.{colored_text, faint_code};
ghost use Rattle.module_tree.specs.Views.{unresolved_view};
ghost use Rattle.serde_json.specs.View.{view};
ghost use Rattle.itemtree_commands.specs.Inner.{pathed_view};
ghost use Rattle.itemtree_commands.specs.ModuleLists as spec;

use crate::crate_file::{CrateFile, position_of};
use crate::module_paths::{PathedModule, inner_path, known_path, pathed_modules};
use hir_input::{Edition, FileAstId};
use hir_input_json::write::object::{of_text, with, with_text};
use line_index::Position;
use list_forms::{
    BOLD, FAINT, Form, RED, USUAL, column_number, line_number, push_color, push_colored, value_line,
};
use module_tree::{ModuleData, ModuleId, ModuleOrigin, ModuleTree, UnresolvedReason};
use serde_json::Value;
use source_listing::PlaceFinder;
use source_rows::push_place;
use std::alloc::{AllocError, Global};

/// The path of a file, by its number.
pub(crate) fn file_path(files: &[CrateFile], file: u32) -> &str
    ensures { result.now ≡ spec.file_path files.now file }
{
    match files.get(file as usize) {
        Some(file) => file.path(),
        None => "",
    }
}

/// What finds the places of each file.
pub(crate) fn finders(
    alloc: Global,
    files: &[CrateFile],
) -> Result<Vec<PlaceFinder<'_>>, AllocError>
    ensures { IfOk result (λ v. v.items ≡ map spec.placed_text files.now) }
{
    let mut finders = Vec::new(alloc);
    for file in files {
        finders.push(file.finder())?;
    }
    Ok(finders)
}

/// Where an item of a file stands.
fn item_position(finders: &mut [PlaceFinder<'_>], file: u32, id: FileAstId) -> Option<Position>
    ensures position { result ≡ spec.item_position finders.old file id }
    ensures same { finders.new ≡ finders.old }
{
    let place = file as usize;
    if place < finders.len() {
        position_of(&mut finders[place], id)
    } else {
        None
    }
}

/// The file of a module, by its place.
pub(crate) fn file_of(modules: &[ModuleData], id: ModuleId) -> u32
    ensures { result ≡ spec.file_of_module modules.now id }
{
    match modules.get(id.0) {
        Some(data) => data.file,
        None => 0,
    }
}

/// The item by which a module is declared, unless it is the root.
pub(crate) fn declaration(origin: ModuleOrigin) -> Option<FileAstId>
    ensures { result ≡ spec.declaration origin }
{
    match origin {
        ModuleOrigin::CrateRoot => None,
        ModuleOrigin::File { declaration } => Some(declaration),
        ModuleOrigin::Inline { definition } => Some(definition),
    }
}

pub(crate) const TOP: Position = Position { line: 1, column: 1 };

/// The number of the file in which a module is declared; the root stands in its own.
pub(crate) fn declaring_file(modules: &[ModuleData], module_data: &ModuleData) -> u32
    ensures { result ≡ spec.declaring_file modules.now module_data.now.parent module_data.now.file }
{
    match module_data.parent {
        Some(parent) => file_of(modules, parent),
        None => module_data.file,
    }
}

/// Where a module is declared; the root stands at the top of its file.
fn declared_at(finders: &mut [PlaceFinder<'_>], file: u32, origin: ModuleOrigin) -> Option<Position>
    ensures position { result ≡ spec.module_position finders.old file (spec.declaration origin) }
    ensures same { finders.new ≡ finders.old }
{
    match declaration(origin) {
        Some(id) => item_position(finders, file, id),
        None => Some(TOP),
    }
}

/// File, line and column.
fn push_position(path: &str, position: Option<Position>, out: &mut String) -> Result<(), AllocError>
    ensures { OnOk result (string_bytes out.new ≡ string_bytes out.old ++ spec.module_place_text path.now position) }
{
    match position {
        Some(position) => push_place(path, position, out),
        None => {
            out.push_str(path)?;
            out.push_str(": ")
        }
    }
}

/// The same, faint in colours.
#[tactic(auto, unfolding(list_forms::specs::Colors::colored_text))]
pub(crate) fn push_stand(
    is_colored: bool,
    path: &str,
    position: Option<Position>,
    out: &mut String,
) -> Result<(), AllocError>
    ensures { let place = spec.module_place_text path.now position in
        OnOk result (string_bytes out.new ≡ string_bytes out.old ++ colored_text is_colored faint_code place) }
{
    push_color(is_colored, FAINT, out)?;
    push_position(path, position, out)?;
    push_color(is_colored, USUAL, out)
}

/// The line of a module, which is declared there.
#[tactic(auto, unfolding(list_forms::specs::Colors::colored_text))]
fn push_module_line(
    is_colored: bool,
    declared_in: &str,
    position: Option<Position>,
    path: &str,
    file: &str,
    out: &mut String,
) -> Result<(), AllocError>
    ensures { let line = spec.module_line is_colored declared_in.now position path.now file.now in
        OnOk result (string_bytes out.new ≡ string_bytes out.old ++ line) }
{
    push_stand(is_colored, declared_in, position, out)?;
    push_colored(is_colored, BOLD, path, out)?;
    out.push_str(" ")?;
    out.push_str(file)?;
    out.push_str("\n")
}

/// The object of a module, which is declared there.
fn module_value(
    alloc: Global,
    declared_in: &str,
    position: Option<Position>,
    path: &str,
    file: &str,
) -> Result<Value, AllocError>
    ensures { IfOk result (λ value. view value
        ≡ spec.crate_module_object declared_in.now position path.now file.now) }
{
    let members = of_text(alloc, "path", path)?;
    let members = with_text(alloc, members, "file", file)?;
    let members = with_text(alloc, members, "declared_in", declared_in)?;
    let members = with(alloc, members, "line", line_number(position))?;
    Ok(Value::Object(with(alloc, members, "column", column_number(position))?))
}

fn push_module(
    alloc: Global,
    form: Form,
    declared_in: &str,
    position: Option<Position>,
    path: &str,
    file: &str,
    out: &mut String,
) -> Result<(), AllocError>
    ensures { let entry = spec.module_entry form declared_in.now position path.now file.now in
        OnOk result (string_bytes out.new ≡ string_bytes out.old ++ entry) }
{
    match form {
        Form::Line { is_colored } => {
            push_module_line(is_colored, declared_in, position, path, file, out)
        }
        Form::Json => {
            let value = module_value(alloc, declared_in, position, path, file)?;
            let line = value_line(alloc, &value)?;
            out.push_str(&line)
        }
    }
}

/// The line or the object of a module of a crate.
fn push_entry(
    alloc: Global,
    form: Form,
    files: &[CrateFile],
    modules: &[ModuleData],
    one: &PathedModule<'_>,
    finders: &mut [PlaceFinder<'_>],
    out: &mut String,
) -> Result<(), AllocError>
    ensures text { let entry = spec.placed_entry form files.now finders.old modules.now (pathed_view one.now) in
        OnOk result (string_bytes out.new ≡ string_bytes out.old ++ entry) }
    ensures same { finders.new ≡ finders.old }
{
    let declaring = declaring_file(modules, one.module_data);
    let position = declared_at(finders, declaring, one.module_data.origin);
    let declared_in = file_path(files, declaring);
    let file = file_path(files, one.module_data.file);
    push_module(alloc, form, declared_in, position, &one.path, file, out)
}

/// `itemtree modules`: a line or a JSON object for each module of a crate, in the order of the tree: where it is
/// declared, its path, and the file in which its items stand. The root stands at the top of its file. Files are those
/// of the numbers of the tree, and their places those that the reader gave with their trees.
///
/// # Errors
///
/// Only if memory runs out.
pub fn modules(
    alloc: Global,
    tree: &ModuleTree,
    files: &[CrateFile],
    edition: &Edition,
    form: Form,
) -> Result<String, AllocError>
    ensures { let lines = spec.module_entries form edition.now.reserved.items files.now tree.now.modules.items in
        IfOk result (λ text. string_bytes text ≡ lines) }
{
    let modules = tree.modules.as_slice();
    let pathed = pathed_modules(alloc, edition, modules)?;
    let mut finders = finders(alloc, files)?;
    let mut out = String::new(alloc);
    for one in &pathed {
        push_entry(
            alloc,
            form,
            files,
            modules,
            one,
            finders.as_mut_slice(),
            &mut out,
        )?;
    }
    Ok(out)
}

/// Why a module has no file, in words.
fn reason_words(reason: UnresolvedReason) -> &'static str
    ensures { result.now ≡ spec.reason_words reason }
{
    match reason {
        UnresolvedReason::NoFile => " has no file: ",
        UnresolvedReason::TwoFiles => " has two files: ",
        UnresolvedReason::Circle => " is a file that it stands in: ",
        UnresolvedReason::TooDeep => " stands in too many files: ",
    }
}

/// Adds paths, each behind a comma.
fn push_others(paths: &[String], out: &mut String) -> Result<(), AllocError>
    ensures { let texts = map string_bytes paths.now in
        OnOk result (string_bytes out.new ≡ string_bytes out.old ++ flat_map spec.behind_comma texts) }
{
    for path in paths {
        out.push_str(", ")?;
        out.push_str(path)?;
    }
    Ok(())
}

/// Adds paths, with commas between them.
pub(crate) fn push_candidates(paths: &[String], out: &mut String) -> Result<(), AllocError>
    ensures { OnOk result (string_bytes out.new ≡ string_bytes out.old
        ++ spec.candidates_text (map string_bytes paths.now)) }
{
    let [first, others @ ..] = paths else {
        return Ok(());
    };
    out.push_str(first)?;
    push_others(others, out)
}

/// What is wrong with a `mod` of this path.
fn unresolved_message(
    alloc: Global,
    path: &str,
    reason: UnresolvedReason,
    candidates: &[String],
) -> Result<String, AllocError>
    ensures { let message = spec.unresolved_message path.now reason (map string_bytes candidates.now) in
        IfOk result (λ text. string_bytes text ≡ message) }
{
    let mut out = String::from_str(alloc, path)?;
    out.push_str(reason_words(reason))?;
    push_candidates(candidates, &mut out)?;
    Ok(out)
}

/// The line of what is wrong there.
#[tactic(auto, unfolding(list_forms::specs::Colors::colored_text))]
pub(crate) fn push_problem(
    is_colored: bool,
    path: &str,
    position: Option<Position>,
    message: &str,
    out: &mut String,
) -> Result<(), AllocError>
    ensures { OnOk result (string_bytes out.new ≡ string_bytes out.old
        ++ spec.fault_line is_colored path.now position message.now) }
{
    push_stand(is_colored, path, position, out)?;
    push_colored(is_colored, RED, message, out)?;
    out.push_str("\n")
}

/// A line for each `mod` of a crate that has no file: where it stands, its path, why, and the paths that were looked
/// for; in colours or not.
///
/// # Errors
///
/// Only if memory runs out.
pub fn unresolved_modules(
    alloc: Global,
    tree: &ModuleTree,
    files: &[CrateFile],
    edition: &Edition,
    is_colored: bool,
) -> Result<String, AllocError>
    ensures { let line = spec.unresolved_in is_colored edition.now.reserved.items files.now tree.now.modules.items in
        let lines = flat_map line (map unresolved_view tree.now.unresolved.items) in
        IfOk result (λ text. string_bytes text ≡ lines) }
{
    let modules = tree.modules.as_slice();
    let pathed = pathed_modules(alloc, edition, modules)?;
    let mut finders = finders(alloc, files)?;
    let mut out = String::new(alloc);
    for unresolved in &tree.unresolved {
        let file = file_of(modules, unresolved.parent);
        let position = item_position(finders.as_mut_slice(), file, unresolved.declaration);
        let path = inner_path(
            alloc,
            edition,
            known_path(pathed.as_slice(), unresolved.parent),
            &unresolved.name,
        )?;
        let message = unresolved_message(alloc, &path, unresolved.reason, &unresolved.candidates)?;
        push_problem(
            is_colored,
            file_path(files, file),
            position,
            &message,
            &mut out,
        )?;
    }
    Ok(out)
}
