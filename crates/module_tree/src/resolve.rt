//! What a `mod` means.
ghost use Rattle.std.specs.Prelude.{◌≡◌, ◌==◌, ◌++◌, [], IfOk, OnOk, map};
ghost use Rattle.std.specs.List.{list_any};
ghost use Rattle.module_tree.specs.Inner.{path_texts, candidate_file_view, file_dir, resolved_view};
ghost use Rattle.module_tree.specs.Modules as spec;
ghost use Rattle.module_tree.specs.Views.{files_of};

use crate::data::UnresolvedReason;
use crate::known::{KnownFiles, KnownPath, known_path};
use crate::mod_dir::{Candidate, ModDir, copy_dir};
use std::alloc::{AllocError, Global};

/// What a `mod` means: not known before these paths are, no file, or this one.
#[derive(Drop)]
pub(crate) enum Resolved<'a> {
    Wants(Vec<String>),
    Fails(UnresolvedReason),
    Finds(u32, ModDir<'a>),
}

/// Adds the path of a candidate if nothing is known of it.
fn push_unknown(
    known: &KnownFiles<'_>,
    candidate: &Candidate<'_>,
    paths: &mut Vec<String>,
) -> Result<(), AllocError>
    ensures { let c = candidate_file_view candidate.now in
        OnOk result (path_texts paths.new.items ≡ path_texts paths.old.items
        ++ spec.unknown_path ((files_of known.now).known c.path) c.path) }
{
    if known_path(known, candidate.path.as_str()).is_some() {
        return Ok(());
    }
    paths.push(candidate.path.clone()?)?;
    Ok(())
}

/// The paths of which nothing is known.
fn unknown_paths(
    alloc: Global,
    known: &KnownFiles<'_>,
    candidates: &[Candidate<'_>],
) -> Result<Vec<String>, AllocError>
    ensures { IfOk result (λ paths. path_texts paths.items
        ≡ spec.unknown_paths (files_of known.now) (map candidate_file_view candidates.now)) }
{
    let mut paths = Vec::new(alloc);
    for candidate in candidates {
        push_unknown(known, candidate, &mut paths)?;
    }
    Ok(paths)
}

fn is_among(file: u32, files: &[u32]) -> bool
    ensures { result ≡ list_any (λ around. around == file) files.now }
{
    files.iter().any(|around| *around == file)
}

type FileFound<'c, 'a> = (u32, &'c Candidate<'a>);

/// Adds a candidate if it is a file.
fn push_found<'c, 'a>(
    known: &KnownFiles<'_>,
    candidate: &'c Candidate<'a>,
    found: &mut Vec<FileFound<'c, 'a>>,
) -> Result<(), AllocError>
    ensures { let c = candidate_file_view candidate.now in
        OnOk result (map file_dir found.new.items ≡ map file_dir found.old.items
        ++ spec.file_found ((files_of known.now).known c.path) c.dir) }
{
    match known_path(known, candidate.path.as_str()) {
        Some(KnownPath::File(file)) => {
            found.push((file, candidate))?;
            Ok(())
        }
        Some(KnownPath::Missing) => Ok(()),
        None => Ok(()),
    }
}

/// The candidates that are files.
fn files_found<'c, 'a>(
    alloc: Global,
    known: &KnownFiles<'_>,
    candidates: &'c [Candidate<'a>],
) -> Result<Vec<FileFound<'c, 'a>>, AllocError>
    ensures { IfOk result (λ found. map file_dir found.items
        ≡ spec.files_found (files_of known.now) (map candidate_file_view candidates.now)) }
{
    let mut found = Vec::new(alloc);
    for candidate in candidates {
        push_found(known, candidate, &mut found)?;
    }
    Ok(found)
}

/// What a `mod` means of these candidates, with these files around it.
pub(crate) fn resolve<'a>(
    alloc: Global,
    known: &KnownFiles<'_>,
    candidates: &[Candidate<'a>],
    around: &[u32],
) -> Result<Resolved<'a>, AllocError>
    ensures { IfOk result (λ r. resolved_view r
        ≡ spec.resolution_of (files_of known.now) around.now (map candidate_file_view candidates.now)) }
{
    let unknown = unknown_paths(alloc, known, candidates)?;
    if !unknown.is_empty() {
        return Ok(Resolved::Wants(unknown));
    }
    let found = files_found(alloc, known, candidates)?;
    one_file(alloc, found.as_slice(), around)
}

/// The one file, if there is one, and it is none of those around.
fn one_file<'a>(
    alloc: Global,
    found: &[FileFound<'_, 'a>],
    around: &[u32],
) -> Result<Resolved<'a>, AllocError>
    ensures { IfOk result (λ r. resolved_view r
        ≡ spec.resolution_by around.now [] (map file_dir found.now)) }
{
    match found {
        [] => Ok(Resolved::Fails(UnresolvedReason::NoFile)),
        [(file, candidate)] => {
            if is_among(*file, around) {
                return Ok(Resolved::Fails(UnresolvedReason::Circle));
            }
            Ok(Resolved::Finds(*file, copy_dir(alloc, &candidate.dir)?))
        }
        _ => Ok(Resolved::Fails(UnresolvedReason::TwoFiles)),
    }
}
