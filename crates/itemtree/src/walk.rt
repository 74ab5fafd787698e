//! The Rust files below a folder.
use crate::escapes::Shown;
use itemtree_options::Asked;
use std::alloc::{AllocError, Global};
use std::collections::BTreeSet;
use std::fmt::Display;
use std::fs::Metadata;
use std::io::{BufRead, BufReader};
use std::os::unix::fs::MetadataExt;
use std::rt::Files;
use std::{fs, io};

/// The file by which cargo marks a folder that it builds in.
const CACHE_TAG: &str = "CACHEDIR.TAG";

/// The file that tells of a package, beside which cargo makes a folder to build in.
pub(crate) const MANIFEST: &str = "Cargo.toml";

/// What cannot be read.
#[derive(PartialEq, Eq, PartialOrd, Ord, Drop)]
pub(crate) struct Fault {
    pub(crate) path: String,
    pub(crate) reason: String,
}

/// The Rust files below folders, and what could not be read there.
#[derive(Drop)]
pub(crate) struct Found {
    /// Their paths, sorted for each folder.
    pub(crate) files: Vec<String>,
    pub(crate) faults: Vec<Fault>,
    /// The links to folders that were left out.
    pub(crate) links: Vec<String>,
}

impl Found {
    pub(crate) fn new(alloc: Global) -> Found {
        Found {
            files: Vec::new(alloc),
            faults: Vec::new(alloc),
            links: Vec::new(alloc),
        }
    }

    pub(crate) fn push_fault(
        &mut self,
        alloc: Global,
        path: &str,
        reason: impl Display + Drop,
    ) -> Result<(), AllocError> {
        let path = String::from_str(alloc, path)?;
        let reason = format!(in alloc; "{reason}")?;
        self.faults.push(Fault { path, reason })?;
        Ok(())
    }
}

/// A folder, by the numbers of its device and of itself.
#[derive(Clone, Copy, PartialEq, Eq, PartialOrd, Ord)]
pub(crate) struct FolderId {
    device: u64,
    number: u64,
}

impl FolderId {
    pub(crate) fn of(rt: &HostRuntime, path: &str) -> io::Result<FolderId> {
        let found = fs::metadata(rt, path)?;
        Ok(FolderId {
            device: found.dev(),
            number: found.ino(),
        })
    }
}

/// What an entry of a folder is.
#[derive(Clone, Copy)]
enum Kind {
    Folder,
    /// A link to a folder.
    Link,
    /// A regular file, or a link to one.
    File,
    /// A link that leads nowhere.
    Dangling,
    /// A pipe, a socket, a device, or a link to one.
    Other,
}

fn kind_behind(entry: &Metadata, folder: Kind) -> Kind {
    if entry.is_dir() {
        folder
    } else if entry.is_file() {
        Kind::File
    } else {
        Kind::Other
    }
}

fn kind_of(rt: &HostRuntime, path: &str) -> io::Result<Kind> {
    let entry = fs::symlink_metadata(rt, path)?;
    if !entry.is_symlink() {
        return Ok(kind_behind(&entry, Kind::Folder));
    }
    match fs::metadata(rt, path) {
        Ok(entry) => Ok(kind_behind(&entry, Kind::Link)),
        Err(error) => match error.kind() {
            io::ErrorKind::NotFound
            | io::ErrorKind::NotADirectory
            | io::ErrorKind::FilesystemLoop => Ok(Kind::Dangling),
            _ => Err(error),
        },
    }
}

/// Adds the names of a folder's entries: those that there were until an error.
fn push_names(rt: &HostRuntime, folder: &str, names: &mut Vec<Vec<u8>>) -> io::Result<()> {
    let alloc = rt.alloc();
    // The system gives whole names, with a zero behind each.
    let mut entries = BufReader::new(alloc, rt.open_dir(folder)?)?;
    for _turn in 0..u64::MAX {
        let mut name = Vec::new(alloc);
        if entries.read_until(0, &mut name)? == 0 {
            break;
        }
        name.pop();
        names.push(name).map_err(AllocError::from)?;
    }
    Ok(())
}

/// The names that are not text, as it can be shown.
fn unnamed_of(alloc: Global, names: &[Vec<u8>]) -> Result<Vec<String>, AllocError> {
    let mut unnamed = Vec::new(alloc);
    for name in names {
        if str::from_utf8(name).is_err() {
            unnamed.push(String::from_utf8_lossy(alloc, name)?)?;
        }
    }
    Ok(unnamed)
}

/// Whether there may be folders whose names are not text: a folder has a link from itself and from each folder in it,
/// on most file systems, and fewer than two where these are not counted.
fn may_have_unnamed(rt: &HostRuntime, folder: &str, names: &[Vec<u8>]) -> Result<bool, AllocError> {
    let Ok(found) = fs::metadata(rt, folder) else {
        return Ok(true);
    };
    let mut count = 0u64;
    for name in names {
        if let Ok(name) = str::from_utf8(name) {
            let path = format!(in rt.alloc(); "{folder}{name}")?;
            let is_folder = fs::symlink_metadata(rt, path).is_ok_and(|entry| entry.is_dir());
            count = count.saturating_add(u64::from(is_folder));
        }
    }
    Ok(found.nlink() < 2 || found.nlink() > count)
}

pub(crate) fn is_file(rt: &HostRuntime, path: &str) -> bool {
    fs::metadata(rt, path).is_ok_and(|found| found.is_file())
}

/// A way through all folders below one.
#[derive(Drop)]
struct Walk<'r, 't, 'a, 'w> {
    rt: &'r HostRuntime,
    asked: &'a Asked<'w>,
    /// The one, without a slash behind it.
    top: &'t str,
    /// Those that are still to be read, each with a slash behind it.
    folders: Vec<String>,
    /// Where links are followed, the folders that were read.
    seen: BTreeSet<FolderId>,
    found: Found,
}

impl Walk<'_, '_, '_, '_> {
    fn excludes(&self, name: &str, whole: &str) -> Result<bool, AllocError> {
        let path = whole.strip_prefix(self.top).unwrap_or(whole);
        let filter = &self.asked.filter;
        filter.excludes(self.rt.alloc(), name, path, whole)
    }

    /// Whether cargo builds in a folder, which is left out then.
    fn is_built(&self, parent: &str, name: &str, path: &str) -> Result<bool, AllocError> {
        if !self.asked.filter.excludes_built(name) {
            return Ok(false);
        }
        let manifest = format!(in self.rt.alloc(); "{parent}{MANIFEST}")?;
        let folder = with_slash(self.rt.alloc(), path)?;
        let tag = format!(in self.rt.alloc(); "{folder}{CACHE_TAG}")?;
        Ok(is_file(self.rt, &manifest) || is_file(self.rt, &tag))
    }

    fn push_folder(&mut self, mut path: String) -> Result<(), AllocError> {
        path.push('/')?;
        self.folders.push(path)?;
        Ok(())
    }

    fn push_kind(&mut self, kind: Kind, is_rust: bool, path: String) -> Result<(), AllocError> {
        match kind {
            Kind::Folder => self.push_folder(path)?,
            Kind::Link => self.found.links.push(path)?,
            Kind::File if is_rust => self.found.files.push(path)?,
            Kind::Dangling if is_rust => {
                let reason = "this link leads nowhere";
                self.found.push_fault(self.rt.alloc(), &path, reason)?;
            }
            _ => {}
        }
        Ok(())
    }

    fn push_entry(&mut self, folder: &str, name: &str) -> Result<(), AllocError> {
        let alloc = self.rt.alloc();
        let path = format!(in alloc; "{folder}{name}")?;
        if matches!(name, "" | "." | "..") || self.excludes(name, &path)? {
            return Ok(());
        }
        let kind = match kind_of(self.rt, &path) {
            Ok(kind) => kind,
            // (it is gone since the folder was read)
            Err(error) if error.kind() == io::ErrorKind::NotFound => return Ok(()),
            Err(error) => return self.found.push_fault(alloc, &path, error),
        };
        if matches!(kind, Kind::Folder | Kind::Link) && self.is_built(folder, name, &path)? {
            return Ok(());
        }
        self.push_kind(kind, name.ends_with(".rs"), path)
    }

    /// An entry whose name is no text cannot be opened. A Rust file is missed by it, and a folder.
    fn push_unnamed(&mut self, folder: &str, names: &[Vec<u8>]) -> Result<(), AllocError> {
        let alloc = self.rt.alloc();
        let unnamed = unnamed_of(alloc, names)?;
        let is_any = !unnamed.is_empty() && may_have_unnamed(self.rt, folder, names)?;
        for name in &unnamed {
            let path = format!(in alloc; "{folder}{name}")?;
            if (is_any || name.ends_with(".rs")) && !self.excludes(name, &path)? {
                let reason = "this name is not UTF-8";
                self.found.push_fault(alloc, &path, reason)?;
            }
        }
        Ok(())
    }

    /// What cannot be read is told, and the rest is read all the same.
    fn read_folder(&mut self, folder: &str) -> Result<(), AllocError> {
        let alloc = self.rt.alloc();
        let mut names = Vec::new(alloc);
        if let Err(error) = push_names(self.rt, folder, &mut names) {
            let path = folder.strip_suffix('/').unwrap_or(folder);
            self.found.push_fault(alloc, path, error)?;
        }
        for name in &names {
            if let Ok(name) = str::from_utf8(name) {
                self.push_entry(folder, name)?;
            }
        }
        self.push_unnamed(folder, &names)
    }

    /// Whether a folder is read for the first time, where links may lead to it again.
    fn is_first(&mut self, folder: &str) -> Result<bool, AllocError> {
        match FolderId::of(self.rt, folder) {
            Ok(id) if self.asked.follows_links => Ok(self.seen.insert(id)?),
            _ => Ok(true),
        }
    }

    /// The next folder; those that links lead to come behind all others.
    fn next_folder(&mut self) -> Result<Option<String>, AllocError> {
        if self.folders.is_empty() && self.asked.follows_links {
            self.found.links.sort()?;
            self.found.links.reverse();
            if let Some(link) = self.found.links.pop() {
                self.push_folder(link)?;
            }
        }
        Ok(self.folders.pop())
    }
}

/// The path of a folder, with a slash behind it.
pub(crate) fn with_slash(alloc: Global, folder: &str) -> Result<String, AllocError> {
    let mut path = String::from_str(alloc, folder)?;
    if !folder.ends_with('/') {
        path.push('/')?;
    }
    Ok(path)
}

/// Tells on standard error which links were left out, and that there is no file.
fn tell(rt: &HostRuntime, folder: &str, found: &Found) {
    let links = found.links.as_slice();
    if let Some((first, more)) = links.split_first() {
        let first = Shown(first);
        let _ = match more.len() {
            0 => eprintln!(rt; "itemtree: {first}: a link to a folder, left out without --follow"),
            more => {
                eprintln!(rt;
                    "itemtree: {first} and {more} more: links to folders, left out without --follow"
                )
            }
        };
    }
    if found.files.is_empty() && found.faults.is_empty() {
        let folder = Shown(folder);
        let _ = eprintln!(rt; "itemtree: {folder}: no Rust file is below this folder");
    }
}

/// The Rust files below a folder, at every depth.
pub(crate) fn files_of_folder(
    rt: &HostRuntime,
    folder: &str,
    asked: &Asked<'_>,
) -> Result<Found, AllocError> {
    let mut folders = Vec::new(rt.alloc());
    folders.push(with_slash(rt.alloc(), folder)?)?;
    let mut walk = Walk {
        rt,
        asked,
        top: folder.strip_suffix('/').unwrap_or(folder),
        folders,
        seen: BTreeSet::new(rt.alloc()),
        found: Found::new(rt.alloc()),
    };
    for _turn in 0..u64::MAX {
        let Some(next) = walk.next_folder()? else {
            break;
        };
        if walk.is_first(&next)? {
            walk.read_folder(&next)?;
        }
    }
    let Walk { mut found, .. } = walk;
    found.files.sort()?;
    found.faults.sort()?;
    found.links.sort()?;
    tell(rt, folder, &found);
    Ok(found)
}
