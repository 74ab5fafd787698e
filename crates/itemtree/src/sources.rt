//! The files that a command line names, each once.
use crate::escapes::Shown;
use crate::failure::Failure;
use crate::files::{Room, STDIN, is_a_folder};
use crate::walk::{Fault, FolderId, Found, files_of_folder};
use itemtree_options::Asked;
use std::alloc::{AllocError, Global};
use std::collections::BTreeSet;

/// A file, by its folder and its name there.
#[derive(PartialEq, Eq, PartialOrd, Ord, Drop)]
struct Entry {
    folder: FolderId,
    name: String,
}

/// The entry at a path, if its folder can be looked at.
fn entry_at(rt: &HostRuntime, path: &str) -> Result<Option<Entry>, AllocError> {
    let (folder, name) = match path.rsplit_once('/') {
        Some(("", name)) => ("/", name),
        Some(parts) => parts,
        None => (".", path),
    };
    let Ok(folder) = FolderId::of(rt, folder) else {
        return Ok(None);
    };
    let name = String::from_str(rt.alloc(), name)?;
    Ok(Some(Entry { folder, name }))
}

/// The files that arguments and the lines of lists stand for.
#[derive(Drop)]
struct Sources<'a> {
    rt: &'a HostRuntime,
    asked: &'a Asked<'a>,
    /// What was found, if it can be found twice.
    seen: Option<BTreeSet<Entry>>,
    found: Found,
}

impl Sources<'_> {
    fn is_first(&mut self, path: &str) -> Result<bool, AllocError> {
        let Some(seen) = &mut self.seen else {
            return Ok(true);
        };
        match entry_at(self.rt, path)? {
            Some(entry) if path != STDIN => Ok(seen.insert(entry)?),
            _ => Ok(true),
        }
    }

    fn push_file(&mut self, path: String) -> Result<(), AllocError> {
        if self.is_first(&path)? {
            self.found.files.push(path)?;
        }
        Ok(())
    }

    fn push_faults(&mut self, faults: Vec<Fault>) -> Result<(), AllocError> {
        for fault in faults {
            if !self.found.faults.contains(&fault) {
                self.found.faults.push(fault)?;
            }
        }
        Ok(())
    }

    fn push_folder(&mut self, path: &str) -> Result<(), AllocError> {
        let found = files_of_folder(self.rt, path, self.asked)?;
        for file in found.files {
            self.push_file(file)?;
        }
        self.push_faults(found.faults)
    }

    fn push_path(&mut self, path: &str) -> Result<(), AllocError> {
        if is_a_folder(self.rt, path) {
            return self.push_folder(path);
        }
        self.push_file(String::from_str(self.rt.alloc(), path)?)
    }

    fn push_paths(&mut self, paths: &[String]) -> Result<(), AllocError> {
        for path in paths {
            self.push_path(path)?;
        }
        Ok(())
    }
}

/// Adds the path that a line of a list is. What stands for standard input elsewhere is a file's name there.
fn push_line(alloc: Global, line: &str, paths: &mut Vec<String>) -> Result<(), AllocError> {
    if line.is_empty() {
        return Ok(());
    }
    let path = if line == STDIN { "./-" } else { line };
    paths.push(String::from_str(alloc, path)?)?;
    Ok(())
}

fn push_words(alloc: Global, words: &[&str], paths: &mut Vec<String>) -> Result<(), AllocError> {
    for word in words {
        paths.push(String::from_str(alloc, word)?)?;
    }
    Ok(())
}

fn push_lines(alloc: Global, text: &str, paths: &mut Vec<String>) -> Result<(), AllocError> {
    for line in text.lines() {
        push_line(alloc, line, paths)?;
    }
    Ok(())
}

/// Adds what a list names. That it is nothing is told on standard error.
fn push_list(
    rt: &HostRuntime,
    list: &str,
    found: &mut Found,
    paths: &mut Vec<String>,
) -> Result<(), AllocError> {
    let before = paths.len();
    let mut room = Room::new(rt.alloc());
    match room.read(rt, list) {
        Ok(text) => push_lines(rt.alloc(), text, paths)?,
        Err(error) => return found.push_fault(rt.alloc(), list, error),
    }
    if paths.len() == before {
        let list = Shown(list);
        let _ = eprintln!(rt; "itemtree: {list}: this list names no file");
    }
    Ok(())
}

/// How often standard input is named.
fn stdin_count(words: &[&str]) -> usize {
    words.iter().filter(|word| **word == STDIN).count()
}

/// Whether the arguments can be read.
fn refuse_wrong(alloc: Global, asked: &Asked<'_>) -> Result<(), Failure> {
    if asked.files.contains(&"") || asked.lists.contains(&"") {
        let message = "an empty path names no file";
        return Err(Failure::Usage(String::from_str(alloc, message)?));
    }
    if stdin_count(&asked.files).saturating_add(stdin_count(&asked.lists)) > 1 {
        let message = "standard input is read once: - can be given only once";
        return Err(Failure::Usage(String::from_str(alloc, message)?));
    }
    Ok(())
}

/// The paths of arguments and of the lines of lists.
fn paths_of(
    rt: &HostRuntime,
    asked: &Asked<'_>,
    found: &mut Found,
) -> Result<Vec<String>, AllocError> {
    let mut paths = Vec::new(rt.alloc());
    push_words(rt.alloc(), &asked.files, &mut paths)?;
    for list in &asked.lists {
        push_list(rt, list, found, &mut paths)?;
    }
    Ok(paths)
}

/// The files that are named, those that lists name, and those below folders, in the order in which they are. One that
/// is named twice, by its name in the same folder, stands where it is first.
pub(crate) fn files_of(rt: &HostRuntime, asked: &Asked<'_>) -> Result<Found, Failure> {
    let alloc = rt.alloc();
    refuse_wrong(alloc, asked)?;
    let mut found = Found::new(alloc);
    let paths = paths_of(rt, asked, &mut found)?;
    let mut sources = Sources {
        rt,
        asked,
        seen: (paths.len() > 1).then(|| BTreeSet::new(alloc)),
        found,
    };
    sources.push_paths(&paths)?;
    let Sources { found, .. } = sources;
    Ok(found)
}
