//! Where the files of modules are looked for.
ghost use Rattle.std.specs.Prelude.{◌≡◌, ◌++◌, ◌∷◌, [], IfOk, OnOk, map, unwrap_or};
ghost use Rattle.module_tree.specs.Inner.{texts, dir_view, mod_item_view, candidate_file_view};
ghost use Rattle.module_tree.specs.Modules as spec;
ghost use Rattle.module_tree.specs.Paths.{all_but_last, final_name, path_text};

use crate::paths::{folder_text, path_from};
use hir_input::{FileAstId, Name};
use std::alloc::{AllocError, Global};

/// Where the modules that stand in one are looked for. rust-analyzer's `ModDir`.
#[derive(Drop)]
pub(crate) struct ModDir<'a> {
    /// The folder in which names are looked for.
    pub(crate) names: Vec<&'a str>,
    /// The one from which a `#[path]` leads.
    pub(crate) paths: Vec<&'a str>,
}

/// An item `mod`.
#[derive(Clone, Copy)]
pub(crate) struct ModItem<'a> {
    pub(crate) name: &'a Name,
    pub(crate) id: FileAstId,
    /// The string of the first `#[path]` that has one.
    pub(crate) path: Option<&'a str>,
}

/// A file that a `mod` may mean, and where the modules in it are looked for.
#[derive(Drop)]
pub(crate) struct Candidate<'a> {
    pub(crate) path: String,
    pub(crate) dir: ModDir<'a>,
}

/// One folder for both.
pub(crate) fn dir_at<'a>(alloc: Global, folder: Vec<&'a str>) -> Result<ModDir<'a>, AllocError>
    ensures { IfOk result (λ dir. dir_view dir ≡ spec.dir_at (texts folder.entry.items)) }
{
    let names = Vec::from_slice(alloc, folder.as_slice())?;
    Ok(ModDir {
        names,
        paths: folder,
    })
}

pub(crate) fn copy_dir<'a>(alloc: Global, dir: &ModDir<'a>) -> Result<ModDir<'a>, AllocError>
    ensures { IfOk result (λ copy. dir_view copy ≡ dir_view dir.now) }
{
    let names = Vec::from_slice(alloc, dir.names.as_slice())?;
    let paths = Vec::from_slice(alloc, dir.paths.as_slice())?;
    Ok(ModDir { names, paths })
}

/// The folder of a name.
fn folder_of<'a>(
    alloc: Global,
    dir: &ModDir<'a>,
    name: &'a Name,
) -> Result<Vec<&'a str>, AllocError>
    ensures { IfOk result (λ names. texts names.items ≡ (dir_view dir.now).names ++ name.now ∷ []) }
{
    let mut names = Vec::from_slice(alloc, dir.names.as_slice())?;
    names.push(name.text())?;
    Ok(names)
}

/// Where the modules in an inline one are looked for.
pub(crate) fn inline_dir<'a>(
    alloc: Global,
    dir: &ModDir<'a>,
    item: &ModItem<'a>,
) -> Result<ModDir<'a>, AllocError>
    ensures { IfOk result (λ inside. dir_view inside ≡ spec.inline_dir (dir_view dir.now) (mod_item_view item.now)) }
{
    match item.path {
        None => dir_at(alloc, folder_of(alloc, dir, item.name)?),
        Some(path) => dir_at(alloc, path_from(alloc, dir.paths.as_slice(), path)?),
    }
}

/// The file `a.rs`, which looks in the folder `a`.
fn named_file<'a>(
    alloc: Global,
    dir: &ModDir<'a>,
    name: &'a Name,
) -> Result<Candidate<'a>, AllocError>
    ensures { IfOk result (λ c. candidate_file_view c ≡ spec.named_file (dir_view dir.now) name.now) }
{
    let mut path = folder_text(alloc, dir.names.as_slice())?;
    path.push_str(name.text())?;
    path.push_str(".rs")?;
    let names = folder_of(alloc, dir, name)?;
    let paths = Vec::from_slice(alloc, dir.names.as_slice())?;
    let dir = ModDir { names, paths };
    Ok(Candidate { path, dir })
}

/// The file `a/mod.rs`, which looks beside itself.
fn mod_rs<'a>(alloc: Global, dir: &ModDir<'a>, name: &'a Name) -> Result<Candidate<'a>, AllocError>
    ensures { IfOk result (λ c. candidate_file_view c ≡ spec.mod_rs (dir_view dir.now) name.now) }
{
    let mut path = folder_text(alloc, dir.names.as_slice())?;
    path.push_str(name.text())?;
    path.push_str("/mod.rs")?;
    let dir = dir_at(alloc, folder_of(alloc, dir, name)?)?;
    Ok(Candidate { path, dir })
}

#[tactic(auto, using(crate::proofs::BorrowedNames::last_is))]
fn last_name<'a>(names: &[&'a str]) -> &'a str
    ensures { result.now ≡ unwrap_or (final_name (texts names.now)) [] }
{
    match names.last() {
        Some(name) => name,
        None => "",
    }
}

/// The file that a path leads to, which looks beside itself.
pub(crate) fn file_at<'a>(
    alloc: Global,
    folder: &[&'a str],
    path: &'a str,
) -> Result<Candidate<'a>, AllocError>
    ensures { IfOk result (λ c. candidate_file_view c ≡ spec.file_at (texts folder.now) path.now) }
{
    let mut names = path_from(alloc, folder, path)?;
    let last = last_name(names.as_slice());
    let _last = names.pop();
    let mut path = folder_text(alloc, names.as_slice())?;
    path.push_str(last)?;
    let dir = dir_at(alloc, names)?;
    Ok(Candidate { path, dir })
}

/// The files that a `mod` may mean.
pub(crate) fn candidates<'a>(
    alloc: Global,
    dir: &ModDir<'a>,
    item: &ModItem<'a>,
) -> Result<Vec<Candidate<'a>>, AllocError>
    ensures { IfOk result (λ cs. map candidate_file_view cs.items
        ≡ spec.candidates (dir_view dir.now) (mod_item_view item.now)) }
{
    let mut candidates = Vec::new(alloc);
    let Some(path) = item.path else {
        candidates.push(named_file(alloc, dir, item.name)?)?;
        candidates.push(mod_rs(alloc, dir, item.name)?)?;
        return Ok(candidates);
    };
    candidates.push(file_at(alloc, dir.paths.as_slice(), path)?)?;
    Ok(candidates)
}
