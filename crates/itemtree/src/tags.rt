//! The tags file.
use crate::escapes::Shown;
use crate::failure::{Failure, refusal};
use crate::files::STDIN;
use crate::output::{STDOUT, write_failure};
use crate::replacing::{is_same, replace};
use std::alloc::{AllocError, Global};
use std::fs::{File, Metadata};
use std::io::{BufRead, BufReader, BufWriter, Read, Write};
use std::os::unix::fs::FileTypeExt;
use std::{fs, io};

/// How the lines of a tags file's head begin.
const OF_HEAD: &str = "!_TAG_";

/// Where a first line ends at the latest, in bytes.
const LONGEST_LINE: u64 = 1 << 20;

/// The file that a command line asks for.
#[derive(Clone, Copy)]
pub(crate) struct TagsFile<'a> {
    pub(crate) path: &'a str,
    /// Whether the command line names it.
    pub(crate) is_named: bool,
    /// Whether its lines are kept.
    pub(crate) is_appended: bool,
}

impl<'a> TagsFile<'a> {
    /// How it is called.
    pub(crate) fn name(self) -> &'a str {
        if self.path == STDIN {
            STDOUT
        } else {
            self.path
        }
    }
}

/// How many lines a head has.
const HEAD_LINES: usize = 9;

/// What tells other programs of the file, as Universal Ctags writes it; tags are found as `--excmd` says.
pub(crate) fn head(alloc: Global, excmd: &str) -> Result<String, AllocError> {
    format!(in alloc;
        "!_TAG_FILE_ENCODING\tutf-8\t//
!_TAG_FILE_FORMAT\t2\t/extended format; --format=1 will not append ;\" to lines/
!_TAG_FILE_SORTED\t1\t/0=unsorted, 1=sorted, 2=foldcase/
!_TAG_OUTPUT_EXCMD\t{excmd}\t/number, pattern, mixed, or combineV2/
!_TAG_OUTPUT_FILESEP\tslash\t/slash or backslash/
!_TAG_OUTPUT_MODE\tu-ctags\t/u-ctags or e-ctags/
!_TAG_PATTERN_LENGTH_LIMIT\t96\t/0 for no limit/
!_TAG_PROGRAM_NAME\titemtree\t//
!_TAG_PROGRAM_VERSION\t0.2.0\t//
"
    )
}

pub(crate) fn write_lines(alloc: Global, out: impl Write + Drop, lines: &[&str]) -> io::Result<()> {
    let mut out = BufWriter::new(alloc, out)?;
    for line in lines {
        out.write_all(line.as_bytes())?;
        out.write_all(b"\n")?;
    }
    out.flush()
}

/// Whether a tag's place is written so: a line's number, or a pattern.
fn is_address(text: &str) -> bool {
    if text.starts_with("/") || text.starts_with("?") {
        return true;
    }
    let number = match text.split_once(';') {
        Some((number, _)) => number,
        None => text,
    };
    !number.is_empty() && number.bytes().all(|byte| byte.is_ascii_digit())
}

/// Whether a line is one of a tags file, as Universal Ctags sees it: a name, a file and a place.
fn is_tags_line(line: &str) -> bool {
    let Some((name, rest)) = line.split_once('\t') else {
        return false;
    };
    let Some((file, address)) = rest.split_once('\t') else {
        return false;
    };
    let is_whole = !name.is_empty() && !file.is_empty();
    is_whole && !name.starts_with("#") && !file.ends_with(";") && is_address(address)
}

/// Whether the first line of a regular file is one of a tags file, or there is none.
fn is_tags_file(rt: &HostRuntime, path: &str) -> io::Result<bool> {
    let alloc = rt.alloc();
    let mut lines = BufReader::new(alloc, File::open(rt, path)?.take(LONGEST_LINE))?;
    let mut line = Vec::new(alloc);
    if lines.read_until(b'\n', &mut line)? == 0 {
        return Ok(true);
    }
    let line = String::from_utf8_lossy(alloc, &line)?;
    Ok(line.starts_with(OF_HEAD) || is_tags_line(line.trim_end()))
}

/// Why a regular file is not to be replaced, if it is not.
fn fault_of(rt: &HostRuntime, path: &str, old: &Metadata) -> io::Result<Option<&'static str>> {
    if !is_tags_file(rt, path)? {
        return Ok(Some("this is no tags file, and stays as it is"));
    }
    if old.permissions().readonly() {
        return Ok(Some("this file is read-only"));
    }
    // (that it can be written is asked of the system)
    let _file = File::options().write(true).open(rt, path)?;
    Ok(None)
}

/// Where the lines go.
#[derive(Drop)]
enum Target {
    Output,
    Errors,
    /// A pipe or a device, or a file that another program has opened.
    Stream,
    /// A regular file, by its own path.
    Old(String, Metadata),
    New,
    /// A link to a file that is still to be made.
    Link,
}

/// Whether a path leads to what is open under this name.
fn is_open_as(rt: &HostRuntime, found: &Metadata, stream: &str) -> bool {
    fs::metadata(rt, stream).is_ok_and(|opened| is_same(&opened, found))
}

/// Whether a path tells of what a program has opened.
fn is_of_program(path: &str) -> bool {
    path.starts_with("/dev/fd/") || path.starts_with("/dev/std") || path.starts_with("/proc/")
}

/// The path of the file that a link leads to; else the path itself.
fn behind_links(rt: &HostRuntime, path: &str) -> io::Result<String> {
    let alloc = rt.alloc();
    if !fs::symlink_metadata(rt, path)?.is_symlink() {
        return Ok(String::from_str(alloc, path)?);
    }
    let path = fs::canonicalize(rt, path)?;
    Ok(String::from_str(alloc, path.as_str())?)
}

fn target_of(rt: &HostRuntime, path: &str) -> io::Result<Target> {
    if path == STDIN {
        return Ok(Target::Output);
    }
    let found = match fs::metadata(rt, path) {
        Ok(found) => found,
        Err(_) if fs::symlink_metadata(rt, path).is_ok() => return Ok(Target::Link),
        Err(error) if error.kind() == io::ErrorKind::NotFound => return Ok(Target::New),
        Err(error) => return Err(error),
    };
    if is_open_as(rt, &found, "/dev/stdout") {
        return Ok(Target::Output);
    }
    if is_open_as(rt, &found, "/dev/stderr") {
        return Ok(Target::Errors);
    }
    if !found.is_file() || is_of_program(path) {
        return Ok(Target::Stream);
    }
    Ok(Target::Old(behind_links(rt, path)?, found))
}

/// Opens a pipe or a device as it is.
fn open_stream(rt: &HostRuntime, path: &str) -> io::Result<File> {
    File::options().append(true).open(rt, path)
}

/// A pipe under a name of its own is waited for until something reads it.
fn tell_of_pipe(rt: &HostRuntime, file: TagsFile<'_>) -> Result<(), Failure> {
    let path = file.path;
    if !fs::symlink_metadata(rt, path).is_ok_and(|found| found.file_type().is_fifo()) {
        return Ok(());
    }
    if !file.is_named {
        let reason = "this is a pipe: -o names one that is to be written";
        return Err(refusal(rt.alloc(), path, reason)?);
    }
    let path = Shown(path);
    let _ = eprintln!(rt; "itemtree: {path}: a pipe, which is waited for until something reads it");
    Ok(())
}

/// Replaces a tags file, and nothing else.
fn replace_old(
    rt: &HostRuntime,
    name: &str,
    path: &str,
    old: &Metadata,
    lines: &[&str],
) -> Result<(), Failure> {
    match fault_of(rt, path, old) {
        Ok(None) => replace(rt, path, Some(old), lines),
        Ok(Some(fault)) => Err(refusal(rt.alloc(), name, fault)?),
        Err(error) => Err(write_failure(rt.alloc(), name, error)),
    }
}

fn write_to(rt: &HostRuntime, file: TagsFile<'_>, lines: &[&str]) -> Result<(), Failure> {
    let (alloc, path) = (rt.alloc(), file.path);
    let written = match target_of(rt, path) {
        Ok(Target::Output) => write_lines(alloc, rt.stdout(), lines),
        Ok(Target::Errors) => write_lines(alloc, rt.stderr(), lines),
        Ok(Target::Stream) => {
            tell_of_pipe(rt, file)?;
            match open_stream(rt, path) {
                Ok(stream) => write_lines(alloc, stream, lines),
                Err(error) => Err(error),
            }
        }
        Ok(Target::Old(own, old)) => return replace_old(rt, path, &own, &old, lines),
        Ok(Target::New) => return replace(rt, path, None, lines),
        Ok(Target::Link) => match File::create(rt, path) {
            Ok(made) => write_lines(alloc, made, lines),
            Err(error) => Err(error),
        },
        Err(error) => Err(error),
    };
    match written {
        Ok(()) => Ok(()),
        Err(error) => Err(write_failure(alloc, file.name(), error)),
    }
}

/// Adds what stands in the old file, if there is a regular one.
fn push_old(rt: &HostRuntime, path: &str, text: &mut String) -> Result<(), Failure> {
    let old = match target_of(rt, path) {
        Ok(Target::Old(own, _)) => fs::read_to_string(rt, own.as_str()),
        Ok(_) => return Ok(()),
        Err(error) => Err(error),
    };
    match old {
        Ok(old) => Ok(text.push_str(&old)?),
        Err(error) => Err(write_failure(rt.alloc(), path, error)),
    }
}

/// The lines of tags, of a text behind a head, sorted and each once.
fn sorted_lines(alloc: Global, text: &str) -> Result<Vec<&str>, AllocError> {
    let is_tag = |line: &&str| !line.starts_with(OF_HEAD) && !line.is_empty();
    let mut lines: Vec<&str> = text.lines().skip(HEAD_LINES).filter(is_tag).collect(alloc)?;
    lines.sort()?;
    lines.dedup();
    Ok(lines)
}

/// Sorts the lines of a text behind its head, and writes all to a file or to standard output.
pub(crate) fn write_tags(
    rt: &HostRuntime,
    file: TagsFile<'_>,
    mut text: String,
) -> Result<(), Failure> {
    if file.is_appended {
        push_old(rt, file.path, &mut text)?;
    }
    let mut lines: Vec<&str> = text.lines().take(HEAD_LINES).collect(rt.alloc())?;
    let mut tags = sorted_lines(rt.alloc(), &text)?;
    lines.append(&mut tags)?;
    write_to(rt, file, &lines)
}
