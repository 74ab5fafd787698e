//! What `itemtree imports --resolve` lists of a crate.
ghost use Rattle.std.specs.Prelude.{◌≡◌, ◌++◌, ◌&&◌, IfOk, OnOk, flat_map, map, string_bytes};
ghost use Rattle.serde_json.specs.View.{view};
ghost use Rattle.tree_walk.specs.Listed.{listed_import};
ghost use Rattle.itemtree_commands.specs.ImportTargets as spec;
ghost use Rattle.itemtree_commands.specs.Inner.{pathed_view, target_view, told_import_view};
ghost use Rattle.itemtree_commands.specs.ModuleLists.{candidates_text, placed_text};

use crate::declarations::DeclaredItems;
use crate::import_checks::import_position;
use crate::import_targets::{PlacedTarget, path_in, placed_targets};
use crate::module_lists::{file_of, push_candidates, push_stand};
use crate::module_paths::{PathedModule, pathed_modules};
use def_map::{ResolvedImport, Verdict};
use hir_input::Edition;
use hir_input_json::write::object::{of_text, with, with_text};
use line_index::Position;
use list_forms::{BOLD, Form, RED, column_number, line_number, push_colored, value_line};
use module_tree::{ModuleData, ModuleTree};
use serde_json::Value;
use source_listing::{PlaceFinder, push_import_text};
use std::alloc::{AllocError, Global};
use tree_walk::Listed;

/// Which imports are listed, and how.
#[derive(Clone, Copy, Debug)]
pub struct ImportLook {
    pub form: Form,
    /// Only those of which `wrong_imports` tells.
    pub only_wrong: bool,
    /// Whether nothing else is wrong with the files. Else nothing is wrong with an import: what it lacks may be what is
    /// damaged.
    pub is_whole: bool,
}

/// An import: where its use tree stands, how a use of it alone would be written, and what is told of it.
#[derive(Drop)]
pub(crate) struct ToldImport<'a> {
    file: &'a str,
    position: Option<Position>,
    text: String,
    verdict: Verdict,
    is_private: bool,
    targets: Vec<PlacedTarget<'a>>,
}

fn is_wrong(verdict: Verdict) -> bool
    ensures { result ≡ spec.is_wrong verdict }
{
    matches!(
        verdict,
        Verdict::Unresolved | Verdict::TooWide | Verdict::Nameless
    )
}

fn verdict_if_whole(is_whole: bool, verdict: Verdict) -> Verdict
    ensures { result ≡ spec.verdict_if_whole is_whole verdict }
{
    if is_whole || !is_wrong(verdict) {
        verdict
    } else {
        Verdict::Unknown
    }
}

fn unresolved_word(is_private: bool) -> &'static str
    ensures { result.now ≡ spec.unresolved_word is_private }
{
    if is_private { "private" } else { "unresolved" }
}

/// The word of a verdict in JSON.
fn verdict_word(verdict: Verdict, is_private: bool) -> &'static str
    ensures { result.now ≡ spec.verdict_word verdict is_private }
{
    match verdict {
        Verdict::Resolved => "resolved",
        Verdict::Unknown => "unknown",
        Verdict::Unresolved => unresolved_word(is_private),
        Verdict::TooWide => "too wide",
        Verdict::Nameless => "nameless",
    }
}

fn nothing_words(is_private: bool) -> &'static str
    ensures { result.now ≡ spec.nothing_words is_private }
{
    if is_private {
        "nothing that it sees"
    } else {
        "nothing"
    }
}

/// The kind and the path of what an import leads to.
fn target_text(alloc: Global, target: &PlacedTarget<'_>) -> Result<String, AllocError>
    ensures { IfOk result (λ text. string_bytes text ≡ spec.target_text (target_view target.now)) }
{
    let mut text = String::from_str(alloc, target.kind)?;
    text.push_str(" ")?;
    text.push_str(&target.path)?;
    Ok(text)
}

fn target_texts(alloc: Global, targets: &[PlacedTarget<'_>]) -> Result<Vec<String>, AllocError>
    ensures { IfOk result (λ texts. map string_bytes texts.items
        ≡ map spec.target_text (map target_view targets.now)) }
{
    let mut texts = Vec::new(alloc);
    for target in targets {
        texts.push(target_text(alloc, target)?)?;
    }
    Ok(texts)
}

/// What an import leads to, with commas between.
fn targets_text(alloc: Global, targets: &[PlacedTarget<'_>]) -> Result<String, AllocError>
    ensures { IfOk result (λ text. string_bytes text
        ≡ candidates_text (map spec.target_text (map target_view targets.now))) }
{
    let texts = target_texts(alloc, targets)?;
    let mut text = String::new(alloc);
    push_candidates(&texts, &mut text)?;
    Ok(text)
}

/// The same, or a word.
fn lead_text(alloc: Global, told: &ToldImport<'_>) -> Result<String, AllocError>
    ensures { let t = told_import_view told.now in
        IfOk result (λ text. string_bytes text ≡ spec.lead_text t.verdict t.is_private t.targets) }
{
    match told.verdict {
        Verdict::Resolved => targets_text(alloc, &told.targets),
        Verdict::Unresolved => String::from_str(alloc, nothing_words(told.is_private)),
        Verdict::Unknown | Verdict::TooWide | Verdict::Nameless => {
            String::from_str(alloc, verdict_word(told.verdict, told.is_private))
        }
    }
}

fn is_red(is_colored: bool, verdict: Verdict) -> bool
    ensures { result ≡ (is_colored && spec.is_wrong verdict) }
{
    is_colored && is_wrong(verdict)
}

/// The line of an import.
#[tactic(auto, unfolding(list_forms::specs::Colors::colored_text))]
fn push_line(
    alloc: Global,
    is_colored: bool,
    told: &ToldImport<'_>,
    out: &mut String,
) -> Result<(), AllocError>
    ensures { let line = spec.lead_line is_colored (told_import_view told.now) in
        OnOk result (string_bytes out.new ≡ string_bytes out.old ++ line) }
{
    let lead = lead_text(alloc, told)?;
    push_stand(is_colored, told.file, told.position, out)?;
    push_colored(is_colored, BOLD, &told.text, out)?;
    out.push_str(" -> ")?;
    push_colored(is_red(is_colored, told.verdict), RED, &lead, out)?;
    out.push_str("\n")
}

fn target_value(alloc: Global, target: &PlacedTarget<'_>) -> Result<Value, AllocError>
    ensures { IfOk result (λ value. view value ≡ spec.target_object (target_view target.now)) }
{
    let members = of_text(alloc, "path", &target.path)?;
    let members = with_text(alloc, members, "kind", target.kind)?;
    let members = with_text(alloc, members, "file", target.file)?;
    let members = with(alloc, members, "line", line_number(target.position))?;
    Ok(Value::Object(with(alloc, members, "column", column_number(target.position))?))
}

fn targets_value(alloc: Global, targets: &[PlacedTarget<'_>]) -> Result<Value, AllocError>
    ensures { IfOk result (λ value. view value ≡ spec.targets_form (map target_view targets.now)) }
{
    let mut values = Vec::new(alloc);
    for target in targets {
        values.push(target_value(alloc, target)?)?;
    }
    Ok(Value::Array(values))
}

/// The object of an import.
fn import_value(alloc: Global, told: &ToldImport<'_>) -> Result<Value, AllocError>
    ensures { IfOk result (λ value. view value ≡ spec.lead_object (told_import_view told.now)) }
{
    let targets = targets_value(alloc, &told.targets)?;
    let members = of_text(alloc, "file", told.file)?;
    let members = with_text(alloc, members, "import", &told.text)?;
    let word = verdict_word(told.verdict, told.is_private);
    let members = with_text(alloc, members, "verdict", word)?;
    let members = with(alloc, members, "targets", targets)?;
    let members = with(alloc, members, "line", line_number(told.position))?;
    Ok(Value::Object(with(alloc, members, "column", column_number(told.position))?))
}

fn push_told(
    alloc: Global,
    form: Form,
    told: &ToldImport<'_>,
    out: &mut String,
) -> Result<(), AllocError>
    ensures { let entry = spec.told_entry form (told_import_view told.now) in
        OnOk result (string_bytes out.new ≡ string_bytes out.old ++ entry) }
{
    match form {
        Form::Line { is_colored } => push_line(alloc, is_colored, told, out),
        Form::Json => {
            let value = import_value(alloc, told)?;
            let line = value_line(alloc, &value)?;
            out.push_str(&line)
        }
    }
}

/// An import as a use of it alone would be written.
fn shown_import(alloc: Global, edition: &Edition, import: &Listed) -> Result<String, AllocError>
    ensures { let text = spec.shown_import edition.now.reserved.items (listed_import import.now) in
        IfOk result (λ out. string_bytes out ≡ text) }
{
    let mut text = String::new(alloc);
    push_import_text(edition, import, &mut text)?;
    Ok(text)
}

/// What is told of an import by a verdict.
fn told_import<'f>(
    alloc: Global,
    edition: &Edition,
    modules: &[ModuleData],
    pathed: &[PathedModule<'_>],
    files: &[DeclaredItems<'f>],
    finders: &mut [PlaceFinder<'_>],
    verdict: Verdict,
    import: &ResolvedImport,
) -> Result<ToldImport<'f>, AllocError>
    ensures told { let told = spec.told_import edition.now.reserved.items files.now finders.old modules.now in
        let told = told (map pathed_view pathed.now) verdict import.now in
        IfOk result (λ x. told_import_view x ≡ told) }
    ensures same { finders.new ≡ finders.old }
{
    let file = file_of(modules, import.module);
    Ok(ToldImport {
        file: path_in(files, file),
        position: import_position(finders, file, import),
        text: shown_import(alloc, edition, &import.import)?,
        verdict,
        is_private: import.is_private,
        targets: placed_targets(alloc, modules, pathed, files, &import.targets)?,
    })
}

/// Adds the entry of an import, if it is listed.
fn push_import(
    alloc: Global,
    edition: &Edition,
    modules: &[ModuleData],
    pathed: &[PathedModule<'_>],
    files: &[DeclaredItems<'_>],
    finders: &mut [PlaceFinder<'_>],
    look: ImportLook,
    import: &ResolvedImport,
    out: &mut String,
) -> Result<(), AllocError>
    ensures entry { let entry = spec.entry_if_listed look edition.now.reserved.items files.now finders.old in
        let entry = entry modules.now (map pathed_view pathed.now) import.now in
        OnOk result (string_bytes out.new ≡ string_bytes out.old ++ entry) }
    ensures same { finders.new ≡ finders.old }
{
    let verdict = verdict_if_whole(look.is_whole, import.verdict);
    if look.only_wrong && !is_wrong(verdict) {
        return Ok(());
    }
    let told = told_import(
        alloc, edition, modules, pathed, files, finders, verdict, import,
    )?;
    push_told(alloc, look.form, &told, out)
}

/// Adds the entries of those that are listed.
fn push_imports(
    alloc: Global,
    edition: &Edition,
    modules: &[ModuleData],
    pathed: &[PathedModule<'_>],
    files: &[DeclaredItems<'_>],
    finders: &mut [PlaceFinder<'_>],
    look: ImportLook,
    imports: &[ResolvedImport],
    out: &mut String,
) -> Result<(), AllocError>
    ensures entries { let entry = spec.entry_if_listed look edition.now.reserved.items files.now finders.old in
        let entry = entry modules.now (map pathed_view pathed.now) in
        OnOk result (string_bytes out.new ≡ string_bytes out.old ++ flat_map entry imports.now) }
    ensures same { finders.new ≡ finders.old }
{
    for import in imports {
        push_import(
            alloc, edition, modules, pathed, files, finders, look, import, out,
        )?;
    }
    Ok(())
}

/// What finds the places of each file.
fn finders_of<'a>(
    alloc: Global,
    files: &[DeclaredItems<'a>],
) -> Result<Vec<PlaceFinder<'a>>, AllocError>
    ensures { IfOk result (λ v. v.items ≡ map placed_text files.now) }
{
    let mut finders = Vec::new(alloc);
    for file in files {
        finders.push(file.finder())?;
    }
    Ok(finders)
}

/// `itemtree imports --resolve`: a line or a JSON object for each import of a crate, or for those of which
/// `wrong_imports` tells: where its use tree stands, how a use of it alone would be written, and what it leads to. Each
/// target is told by the word of its kind and its path; what is not seen has none.
///
/// # Errors
///
/// Only if memory runs out.
pub fn resolved_imports(
    alloc: Global,
    imports: &[ResolvedImport],
    tree: &ModuleTree,
    files: &[DeclaredItems<'_>],
    edition: &Edition,
    look: ImportLook,
) -> Result<String, AllocError>
    ensures { let entry = spec.resolved_entry look edition.now.reserved.items tree.now.modules.items files.now in
        IfOk result (λ text. string_bytes text ≡ flat_map entry imports.now) }
{
    let modules = tree.modules.as_slice();
    let pathed = pathed_modules(alloc, edition, modules)?;
    let mut finders = finders_of(alloc, files)?;
    let mut out = String::new(alloc);
    push_imports(
        alloc,
        edition,
        modules,
        pathed.as_slice(),
        files,
        finders.as_mut_slice(),
        look,
        imports,
        &mut out,
    )?;
    Ok(out)
}
