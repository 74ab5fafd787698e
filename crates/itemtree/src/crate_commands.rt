//! What commands are told of crates: their files, and their modules.
use crate::commands::or_closed;
use crate::crate_sources::CrateSources;
use crate::escapes::Shown;
use crate::failure::Failure;
use crate::packages::Crates;
use crate::report::Report;
use crate::walk::files_of_folder;
use def_map::{DefMapError, Manifest};
use itemtree_commands::{
    CrateFile, ImportLook, Options, check, declared_items, modules, resolved_imports,
    unresolved_modules, wrong_imports,
};
use itemtree_options::Asked;
use module_tree::{ModuleChoice, ModuleTree};
use source_listing::Source;
use std::alloc::{AllocError, Global};

/// The modules of each crate.
fn trees_of(
    sources: &mut CrateSources<'_>,
    alloc: Global,
    roots: &[String],
) -> Result<Vec<ModuleTree>, Failure> {
    let mut trees = Vec::new(alloc);
    for root in roots {
        if let Some(tree) = sources.modules(root)? {
            trees.push(tree).map_err(AllocError::from)?;
        }
    }
    Ok(trees)
}

/// The lines of the modules of crates that have no file.
fn unresolved_in(
    sources: &CrateSources<'_>,
    alloc: Global,
    options: &Options,
    trees: &[ModuleTree],
    is_colored: bool,
) -> Result<String, AllocError> {
    let mut lines = String::new(alloc);
    for tree in trees {
        let text = unresolved_modules(alloc, tree, sources.files(), &options.edition, is_colored)?;
        lines.push_str(&text)?;
    }
    Ok(lines)
}

/// The lines of the imports of crates that are wrong.
fn wrong_imports_in(
    report: &mut Report<'_>,
    sources: &CrateSources<'_>,
    manifest: &Manifest,
    trees: &[ModuleTree],
) -> Result<String, Failure> {
    let (alloc, is_colored) = (report.rt.alloc(), report.is_colored());
    let mut lines = String::new(alloc);
    if !sources.tells_paths() {
        return Ok(lines);
    }
    for tree in trees {
        match sources.resolved_imports(tree, manifest) {
            Ok(imports) => {
                let files = sources.files();
                lines.push_str(&wrong_imports(alloc, &imports, tree, files, is_colored)?)?;
            }
            Err(DefMapError::OutOfMemory) => return Err(Failure::from(AllocError)),
            Err(error) => report.complain("imports", error),
        }
    }
    Ok(lines)
}

/// What is found of crates.
#[derive(Drop)]
pub(crate) struct CratesFound {
    /// Their files, in the order of their modules.
    pub(crate) files: Vec<String>,
    /// The lines of the modules that have no file.
    pub(crate) unresolved: String,
    /// The lines of the imports that are wrong, if these are asked for.
    pub(crate) imports: String,
}

fn paths_of(alloc: Global, files: &[&CrateFile]) -> Result<Vec<String>, AllocError> {
    let mut paths = Vec::new(alloc);
    for file in files {
        paths.push(String::from_str(alloc, file.path())?)?;
    }
    Ok(paths)
}

/// What is found of crates, with the imports that are wrong if these are wanted.
pub(crate) fn crates_found(
    report: &mut Report<'_>,
    options: &Options,
    crates: &Crates,
    wants_imports: bool,
) -> Result<CratesFound, Failure> {
    let alloc = report.rt.alloc();
    let mut sources = CrateSources::new(report.rt, options, ModuleChoice::Enabled);
    let trees = trees_of(&mut sources, alloc, &crates.roots)?;
    report.complain_of(sources.faults());
    let files = paths_of(alloc, &sources.files_of(&trees)?)?;
    let unresolved = unresolved_in(&sources, alloc, options, &trees, report.is_colored())?;
    let imports = if wants_imports {
        wrong_imports_in(report, &sources, &crates.facts, &trees)?
    } else {
        String::new(alloc)
    };
    Ok(CratesFound {
        files,
        unresolved,
        imports,
    })
}

/// The lines of what is wrong with the files of crates.
fn damage_in(
    report: &mut Report<'_>,
    sources: &CrateSources<'_>,
    options: &Options,
    trees: &[ModuleTree],
) -> Result<String, Failure> {
    let alloc = report.rt.alloc();
    let mut lines = String::new(alloc);
    for file in sources.files_of(trees)? {
        let path = report.path_of(file.path())?;
        let source = Source {
            path: path.as_str(),
            text: file.text(),
        };
        match check(alloc, source, options, false) {
            Ok(checked) => lines.push_str(&checked.text)?,
            Err(error) => report.complain(Shown(file.path()), error),
        }
    }
    Ok(lines)
}

/// Writes what the imports of crates lead to.
fn write_resolved(
    report: &mut Report<'_>,
    sources: &CrateSources<'_>,
    options: &Options,
    crates: &Crates,
    trees: &[ModuleTree],
    look: ImportLook,
) -> Result<(), Failure> {
    let alloc = report.rt.alloc();
    if !sources.tells_paths() {
        report.complain("imports", "not resolved, because a use begins with ::{");
        return Ok(());
    }
    let files = declared_items(alloc, sources.files())?;
    for tree in trees {
        match sources.resolved_imports(tree, &crates.facts) {
            Ok(imports) => {
                let edition = &options.edition;
                let text = resolved_imports(alloc, &imports, tree, &files, edition, look)?;
                if look.only_wrong && !text.is_empty() {
                    report.write_wrong(&text)?;
                } else {
                    report.write(&text)?;
                }
            }
            Err(DefMapError::OutOfMemory) => return Err(Failure::from(AllocError)),
            Err(error) => report.complain("imports", error),
        }
    }
    Ok(())
}

/// `itemtree imports --resolve`: lists what the imports of crates lead to, and gives the status to end with. What is
/// wrong with the files is told on standard error; then nothing is wrong with an import.
pub(crate) fn list_resolved(
    rt: &HostRuntime,
    options: &Options,
    asked: &Asked<'_>,
    crates: &Crates,
    only_wrong: bool,
) -> Result<u8, Failure> {
    let mut report = Report::new(rt, asked);
    let mut sources = CrateSources::new(rt, options, ModuleChoice::Enabled);
    let trees = trees_of(&mut sources, rt.alloc(), &crates.roots)?;
    report.complain_of(sources.faults());
    let damage = damage_in(&mut report, &sources, options, &trees)?;
    let look = ImportLook {
        form: report.form,
        only_wrong,
        is_whole: report.status == 0 && damage.is_empty(),
    };
    if only_wrong {
        report.tell_wrong(&damage);
    } else {
        report.tell(&damage);
    }
    let done = write_resolved(&mut report, &sources, options, crates, &trees, look);
    or_closed(done, report.status)
}

/// Writes the files below the folder of a root file that were not read.
fn write_orphans(
    report: &mut Report<'_>,
    sources: &CrateSources<'_>,
    asked: &Asked<'_>,
    root: &str,
) -> Result<(), Failure> {
    let folder = match root.rsplit_once('/') {
        Some(("", _)) => "/",
        Some((folder, _)) => folder,
        None => ".",
    };
    let found = files_of_folder(report.rt, folder, asked)?;
    report.complain_of(&found.faults);
    for file in found.files {
        if !sources.has_read(&file) {
            let shown = Shown(file.strip_prefix("./").unwrap_or(&file));
            let line = format!(in report.rt.alloc(); "{shown}\n")?;
            report.write_wrong(&line)?;
        }
    }
    Ok(())
}

/// `itemtree modules`: lists the modules of crates, and gives the status to end with.
pub(crate) fn list_modules(
    rt: &HostRuntime,
    options: &Options,
    asked: &Asked<'_>,
    roots: &[String],
) -> Result<u8, Failure> {
    let alloc = rt.alloc();
    let mut report = Report::new(rt, asked);
    let mut sources = CrateSources::new(rt, options, ModuleChoice::Enabled);
    let trees = trees_of(&mut sources, alloc, roots)?;
    for tree in &trees {
        let form = report.form;
        report.write(&modules(alloc, tree, sources.files(), &options.edition, form)?)?;
    }
    report.tell_wrong(&unresolved_in(&sources, alloc, options, &trees, false)?);
    report.complain_of(sources.faults());
    Ok(report.status)
}

/// `itemtree modules --orphans`: lists the files that no `mod` names, and gives the status to end with.
pub(crate) fn list_orphans(
    rt: &HostRuntime,
    options: &Options,
    asked: &Asked<'_>,
    roots: &[String],
) -> Result<u8, Failure> {
    let mut report = Report::new(rt, asked);
    let mut sources = CrateSources::new(rt, options, ModuleChoice::All);
    let _trees = trees_of(&mut sources, rt.alloc(), roots)?;
    for root in roots {
        write_orphans(&mut report, &sources, asked, root)?;
    }
    report.complain_of(sources.faults());
    Ok(report.status)
}
