//! The paths of files in a tags file.
use crate::files::STDIN;
use itemtree_options::Command;
use std::alloc::{AllocError, Global};
use std::{env, io};

/// What the paths of a tags file begin at.
#[derive(Drop)]
pub(crate) struct TagPaths<'a> {
    /// What `--tag-relative` says: `no`, `yes`, `always` or `never`.
    relative: &'a str,
    /// The folder in which the program runs; empty if no path needs it.
    here: String,
    /// The path of the tags file.
    tags: &'a str,
}

impl<'a> TagPaths<'a> {
    pub(crate) fn new(rt: &HostRuntime, command: Command<'a>) -> io::Result<TagPaths<'a>> {
        let (relative, tags) = match command {
            Command::Tags {
                relative,
                output,
                ..
            } => (relative, output),
            _ => ("no", ""),
        };
        let here = match relative {
            "no" => String::new(rt.alloc()),
            _ => String::from_str(rt.alloc(), env::current_dir(rt)?.as_str())?,
        };
        Ok(TagPaths {
            relative,
            here,
            tags,
        })
    }
}

impl TagPaths<'_> {
    /// How a file is called in the tags file, as Universal Ctags has it.
    pub(crate) fn path_of(&self, alloc: Global, path: &str) -> Result<String, AllocError> {
        let is_absolute = path.starts_with("/");
        match self.relative {
            "yes" if is_absolute => String::from_str(alloc, path),
            "yes" | "always" if path != STDIN => self.relative_path(alloc, path),
            "never" if path != STDIN => {
                joined_path(alloc, "/", &names_of(alloc, &self.here, path)?, 0)
            }
            _ => String::from_str(alloc, path.strip_prefix("./").unwrap_or(path)),
        }
    }

    /// A path from the folder of the tags file on.
    fn relative_path(&self, alloc: Global, path: &str) -> Result<String, AllocError> {
        let (folder, _name) = self.tags.rsplit_once('/').unwrap_or(("", ""));
        let folder = if self.tags.starts_with("/") && folder.is_empty() {
            "/"
        } else {
            folder
        };
        let around = names_of(alloc, &self.here, folder)?;
        let names = names_of(alloc, &self.here, path)?;
        let shared = shared_count(&around, &names);
        let mut front = String::new(alloc);
        for _name in around.iter().skip(shared) {
            front.push_str("../")?;
        }
        joined_path(alloc, &front, &names, shared)
    }
}

/// Adds the names of a path; `..` takes the last one away.
fn push_names<'a>(path: &'a str, names: &mut Vec<&'a str>) -> Result<(), AllocError> {
    for name in path.split('/') {
        match name {
            "" | "." => {}
            ".." => {
                let _last = names.pop();
            }
            _ => names.push(name)?,
        }
    }
    Ok(())
}

/// The names of a path from the top on, which is told from a folder if it is not absolute.
fn names_of<'a>(alloc: Global, folder: &'a str, path: &'a str) -> Result<Vec<&'a str>, AllocError> {
    let mut names = Vec::new(alloc);
    if !path.starts_with("/") {
        push_names(folder, &mut names)?;
    }
    push_names(path, &mut names)?;
    Ok(names)
}

/// How many names two paths have in common at their beginnings.
fn shared_count(ours: &[&str], theirs: &[&str]) -> usize {
    ours.iter()
        .zip(theirs)
        .position(|(our, their)| our != their)
        .unwrap_or(ours.len().min(theirs.len()))
}

/// Names behind so many others, with slashes between them.
fn joined_path(
    alloc: Global,
    front: &str,
    names: &[&str],
    from: usize,
) -> Result<String, AllocError> {
    let mut path = String::from_str(alloc, front)?;
    for (at, name) in names.iter().enumerate().skip(from) {
        if at > from {
            path.push_str("/")?;
        }
        path.push_str(name)?;
    }
    Ok(path)
}
