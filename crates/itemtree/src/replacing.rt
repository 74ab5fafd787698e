//! Regular files that are replaced as a whole, or stand as they were.
use crate::failure::{Failure, refusal};
use crate::output::write_failure;
use crate::tags::write_lines;
use std::fs::{File, Metadata};
use std::os::unix::fs::MetadataExt;
use std::{fs, io};

/// How many runs at once write the same file, each to a new one of its own.
const MOST_RUNS: u8 = 100;

/// Whether two paths or files are the same.
pub(crate) fn is_same(one: &Metadata, other: &Metadata) -> bool {
    one.dev() == other.dev() && one.ino() == other.ino()
}

/// A new file, beside the one whose name it gets.
#[derive(Drop)]
struct Beside {
    path: String,
    file: File,
}

/// Opens a new file, or one that an ended run has left; not one that another run writes.
///
/// A run holds the lock of its file until that has the name of the other.
fn open_unused(rt: &HostRuntime, path: &str) -> io::Result<Option<File>> {
    let file = File::options().write(true).create(true).open(rt, path)?;
    if file.try_lock().is_err() {
        return Ok(None);
    }
    match fs::symlink_metadata(rt, path) {
        Ok(there) if is_same(&there, &file.metadata()?) => Ok(Some(file)),
        _ => Ok(None),
    }
}

/// Whether this is in the way of a new file. What an ended run has left is not.
fn is_in_the_way(rt: &HostRuntime, path: &str) -> bool {
    fs::symlink_metadata(rt, path).is_ok_and(|there| !there.is_file() || there.nlink() > 1)
}

fn open_beside(rt: &HostRuntime, path: &str) -> Result<io::Result<Beside>, Failure> {
    let alloc = rt.alloc();
    for turn in 0..MOST_RUNS {
        let beside = match turn {
            0 => format!(in alloc; "{path}.new")?,
            turn => format!(in alloc; "{path}.new{turn}")?,
        };
        if is_in_the_way(rt, &beside) {
            let reason = "this is in the way: the new file is written here first";
            return Err(refusal(alloc, &beside, reason)?);
        }
        match open_unused(rt, &beside) {
            Ok(Some(file)) => return Ok(Ok(Beside { path: beside, file })),
            Ok(None) => {}
            Err(error) => return Ok(Err(error)),
        }
    }
    Ok(Err(io::Error::from(io::ErrorKind::ResourceBusy)))
}

/// Whether a new file would have the owners and names of an old one.
fn keeps_owners(file: &File, old: &Metadata) -> io::Result<bool> {
    let new = file.metadata()?;
    Ok(old.nlink() < 2 && new.uid() == old.uid() && new.gid() == old.gid())
}

/// How far a file was replaced.
#[derive(Clone, Copy)]
enum Replaced {
    Wholly,
    /// Not at all, since a new file cannot stand for the old one.
    NotAtAll,
}

/// Fills the new file, and gives it the name of the other.
fn fill(
    rt: &HostRuntime,
    beside: &Beside,
    path: &str,
    old: Option<&Metadata>,
    lines: &[&str],
) -> io::Result<Replaced> {
    if let Some(old) = old {
        if !keeps_owners(&beside.file, old)? {
            return Ok(Replaced::NotAtAll);
        }
        beside.file.set_permissions(old.permissions())?;
    }
    beside.file.set_len(0)?;
    write_lines(rt.alloc(), &beside.file, lines)?;
    match fs::rename(rt, beside.path.as_str(), path) {
        Ok(()) => Ok(Replaced::Wholly),
        // (a file that is mounted cannot be replaced)
        Err(_) if old.is_some() => Ok(Replaced::NotAtAll),
        Err(error) => Err(error),
    }
}

/// Fills the new file, and takes it away where it does not get the name of the other.
fn put_in_place(
    rt: &HostRuntime,
    beside: &Beside,
    path: &str,
    old: Option<&Metadata>,
    lines: &[&str],
) -> io::Result<Replaced> {
    let filled = fill(rt, beside, path, old, lines);
    if !matches!(filled, Ok(Replaced::Wholly)) {
        let _ = fs::remove_file(rt, beside.path.as_str());
    }
    filled
}

/// Whether an error says that no file can be made in a folder.
fn is_closed(error: &io::Error) -> bool {
    matches!(
        error.kind(),
        io::ErrorKind::PermissionDenied
            | io::ErrorKind::ReadOnlyFilesystem
            | io::ErrorKind::InvalidFilename
    )
}

fn try_replace(
    rt: &HostRuntime,
    path: &str,
    old: Option<&Metadata>,
    lines: &[&str],
) -> Result<io::Result<Replaced>, Failure> {
    match open_beside(rt, path)? {
        Ok(beside) => Ok(put_in_place(rt, &beside, path, old, lines)),
        Err(error) if old.is_some() && is_closed(&error) => Ok(Ok(Replaced::NotAtAll)),
        Err(error) => Ok(Err(error)),
    }
}

/// Puts a new file in the place of one, or of none, which stands as it is until then. Where a new file cannot stand for
/// the old one, that is written itself.
pub(crate) fn replace(
    rt: &HostRuntime,
    path: &str,
    old: Option<&Metadata>,
    lines: &[&str],
) -> Result<(), Failure> {
    let written = match try_replace(rt, path, old, lines)? {
        Ok(Replaced::Wholly) => Ok(()),
        Ok(Replaced::NotAtAll) => match File::create(rt, path) {
            Ok(file) => write_lines(rt.alloc(), file, lines),
            Err(error) => Err(error),
        },
        Err(error) => Err(error),
    };
    match written {
        Ok(()) => Ok(()),
        Err(error) => Err(write_failure(rt.alloc(), path, error)),
    }
}
