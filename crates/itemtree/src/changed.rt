//! What became of a file in another, or of the files below a folder in those below another.
use crate::commands::or_closed;
use crate::escapes::Shown;
use crate::failure::Failure;
use crate::files::{Room, STDIN, is_a_folder};
use crate::report::Report;
use crate::walk::{Found, files_of_folder, with_slash};
use itemtree_commands::{CompareError, Options, compare_trees};
use itemtree_options::Asked;
use list_forms::Form;
use source_changes::{ChangeKind, compare_public, file_change};
use source_listing::Source;
use std::alloc::{AllocError, Global};
use std::collections::BTreeMap;
use std::fmt::Display;

/// How files differ whose items are the same.
const ONLY_ORDER: &str = "the order of items or the attributes of the file differ";

/// How trees differ whose items are the same to others.
const ONLY_IN_TREES: &str =
    "the order of items, or the attributes of the file or inside a body differ";

/// What counts where two files are compared.
#[derive(Clone, Copy)]
pub(crate) struct Counting {
    /// Whether nothing is told where the item trees are equal.
    pub(crate) is_of_trees: bool,
    /// Whether only what is seen outside of its module counts.
    pub(crate) is_public: bool,
}

/// A comparison. Its status is that of `diff`: 0 where all is the same, 1 where something differs, 2 where something
/// cannot be read.
#[derive(Drop)]
struct Comparison<'a> {
    report: Report<'a>,
    options: &'a Options,
    counting: Counting,
    /// Whether documentation is compared too.
    has_docs: bool,
}

impl Comparison<'_> {
    /// Tells what became of a file.
    fn tell_file(&mut self, written: &str, kind: ChangeKind) -> Result<(), Failure> {
        let text = file_change(self.report.rt.alloc(), written, kind, self.report.form)?;
        self.report.write_wrong(&text)
    }

    /// Tells that files differ whose items are the same.
    fn tell_order(&mut self, old: &str, new: &str) -> Result<(), Failure> {
        if let Form::Json = self.report.form {
            return self.tell_file(new, ChangeKind::Changed);
        }
        let what = if self.counting.is_of_trees {
            ONLY_IN_TREES
        } else {
            ONLY_ORDER
        };
        let line = format!(in self.report.rt.alloc(); "{old} and {new}: {what}\n")?;
        self.report.write_wrong(&line)
    }

    /// Two files that there is no memory to compare.
    fn give_up(&mut self, old: &str, new: &str) {
        self.report.fail();
        let _ = eprintln!(self.report.rt; "itemtree: {old} and {new}: out of memory");
    }

    fn tell(&mut self, old: &str, new: &str, lines: &str, is_same: bool) -> Result<(), Failure> {
        if is_same {
            return Ok(());
        }
        if lines.is_empty() {
            return self.tell_order(old, new);
        }
        self.report.write_wrong(lines)
    }

    /// Complains of a path that is written as the report has it.
    fn complain_of(&mut self, written: &str, error: impl Display + Drop) {
        match self.report.form {
            Form::Json => self.report.complain(Shown(written), error),
            Form::Line { .. } => self.report.complain(written, error),
        }
    }

    /// Lists the changes between two files whose trees differ.
    fn compare_trees(&mut self, old: Source<'_>, new: Source<'_>) -> Result<(), Failure> {
        let (alloc, form) = (self.report.rt.alloc(), self.report.form);
        match compare_trees(alloc, old, new, self.options, form) {
            Ok(compared) => self.tell(old.path, new.path, &compared.text, compared.is_same)?,
            Err(CompareError::Old(error)) => self.complain_of(old.path, error),
            Err(CompareError::New(error)) => self.complain_of(new.path, error),
            Err(CompareError::OutOfMemory) => self.give_up(old.path, new.path),
        }
        Ok(())
    }

    /// Lists the changes of what others can see of two files.
    fn compare_seen(&mut self, old: Source<'_>, new: Source<'_>) -> Result<(), Failure> {
        let (alloc, form) = (self.report.rt.alloc(), self.report.form);
        let (year, has_docs) = (self.options.edition.year, self.has_docs);
        let compared = if self.counting.is_public {
            compare_public(alloc, old, new, year, has_docs, form)
        } else {
            source_changes::compare(alloc, old, new, year, has_docs, form)
        };
        match compared {
            Ok(compared) => self.tell(old.path, new.path, &compared.text, compared.is_same)?,
            Err(_) => self.give_up(old.path, new.path),
        }
        Ok(())
    }

    fn compare_files(
        &mut self,
        old_path: &str,
        new_path: &str,
        old_room: &mut Room,
        new_room: &mut Room,
    ) -> Result<(), Failure> {
        let old = self.report.read(old_path, old_room);
        let new = self.report.read(new_path, new_room);
        let (Some(old), Some(new)) = (old, new) else {
            return Ok(());
        };
        // (Others see the same of equal texts, and no text is too long to be seen.)
        if !self.counting.is_of_trees && old == new {
            return Ok(());
        }
        let old_path = self.report.path_of(old_path)?;
        let new_path = self.report.path_of(new_path)?;
        let olds = Source {
            path: &old_path,
            text: old,
        };
        let news = Source {
            path: &new_path,
            text: new,
        };
        if self.counting.is_of_trees {
            self.compare_trees(olds, news)
        } else {
            self.compare_seen(olds, news)
        }
    }

    /// Tells of a file that only one of two folders has.
    fn tell_single(&mut self, path: &str, kind: ChangeKind) -> Result<(), Failure> {
        let path = self.report.path_of(path)?;
        self.tell_file(&path, kind)
    }

    fn side(&mut self, folder: &str, asked: &Asked<'_>) -> Result<Side, AllocError> {
        let found = files_of_folder(self.report.rt, folder, asked)?;
        self.report.complain_of(&found.faults);
        let top = with_slash(self.report.rt.alloc(), folder)?;
        Ok(Side { top, found })
    }

    fn compare_folders(&mut self, old: &str, new: &str, asked: &Asked<'_>) -> Result<(), Failure> {
        let alloc = self.report.rt.alloc();
        let (olds, news) = (self.side(old, asked)?, self.side(new, asked)?);
        let pairs = pairs(alloc, &olds, &news)?;
        let (mut old_room, mut new_room) = (Room::new(alloc), Room::new(alloc));
        for (before, (below, pair)) in pairs.iter().enumerate() {
            match *pair {
                (Some(old), Some(new)) => {
                    self.compare_files(old, new, &mut old_room, &mut new_room)?;
                }
                (Some(old), None) if !news.may_have(alloc, below)? => {
                    self.tell_single(old, ChangeKind::Removed)?;
                }
                (None, Some(new)) if !olds.may_have(alloc, below)? => {
                    self.tell_single(new, ChangeKind::Added)?;
                }
                _ => {}
            }
            self.report.tell_progress(before + 1, pairs.len());
        }
        Ok(())
    }
}

/// One of two folders.
#[derive(Drop)]
struct Side {
    /// Its path, with a slash behind it.
    top: String,
    found: Found,
}

/// Whether a path is another, or leads below it.
fn is_at_or_below(path: &str, other: &str) -> bool {
    let Some(rest) = path.strip_prefix(other) else {
        return false;
    };
    rest.is_empty() || rest.starts_with("/")
}

impl Side {
    fn path_below<'a>(&self, file: &'a str) -> &'a str {
        file.strip_prefix(self.top.as_str()).unwrap_or(file)
    }

    /// Whether a file may stand at this path in the folder, where something could not be read or was left out.
    fn may_have(&self, alloc: Global, below: &str) -> Result<bool, AllocError> {
        let top = &self.top;
        let path = format!(in alloc; "{top}{below}")?;
        let is_unread = |unread: &str| is_at_or_below(&path, unread);
        Ok(
            self.found.faults.iter().any(|fault| is_unread(&fault.path))
                || self.found.links.iter().any(|link| is_unread(link)),
        )
    }
}

/// The files of two folders that have the same path there, or one that only one of them has.
type Pair<'a> = (Option<&'a str>, Option<&'a str>);

/// The files of a folder, by their paths there.
fn by_path<'a>(alloc: Global, old: &'a Side) -> Result<BTreeMap<&'a str, Pair<'a>>, AllocError> {
    let mut pairs = BTreeMap::new(alloc);
    for file in &old.found.files {
        pairs.insert(old.path_below(file), (Some(file.as_str()), None))?;
    }
    Ok(pairs)
}

/// Those of two folders.
fn pairs<'a>(
    alloc: Global,
    old: &'a Side,
    new: &'a Side,
) -> Result<BTreeMap<&'a str, Pair<'a>>, AllocError> {
    let mut pairs = by_path(alloc, old)?;
    for file in &new.found.files {
        let below = new.path_below(file);
        let other = pairs.get(below).and_then(|pair| pair.0);
        pairs.insert(below, (other, Some(file.as_str())))?;
    }
    Ok(pairs)
}

/// A folder cannot be compared with what is none.
fn no_folder(alloc: Global, folder: &str, other: &str) -> Result<Failure, AllocError> {
    let (folder, other) = (Shown(folder), Shown(other));
    let message = format!(in alloc;
        "{folder} is a folder, and {other} is none: compare two files or two folders"
    )?;
    Ok(Failure::Usage(message))
}

/// Whether the two arguments can be read.
fn refuse_wrong(alloc: Global, old: &str, new: &str) -> Result<(), Failure> {
    let message = match (old, new) {
        (STDIN, STDIN) => "standard input is read once: only one of the two files can be -",
        ("", _) | (_, "") => "an empty path names no file",
        _ => return Ok(()),
    };
    Err(Failure::Usage(String::from_str(alloc, message)?))
}

/// Lists the changes between two files, or between those of two folders, and gives the status to end with.
pub(crate) fn compare(
    rt: &HostRuntime,
    options: &Options,
    asked: &Asked<'_>,
    old: &str,
    new: &str,
    counting: Counting,
) -> Result<u8, Failure> {
    let alloc = rt.alloc();
    refuse_wrong(alloc, old, new)?;
    let mut comparison = Comparison {
        report: Report::new(rt, asked),
        options,
        counting,
        has_docs: asked.has_docs,
    };
    let done = match (is_a_folder(rt, old), is_a_folder(rt, new)) {
        (false, false) => {
            let (mut old_room, mut new_room) = (Room::new(alloc), Room::new(alloc));
            comparison.compare_files(old, new, &mut old_room, &mut new_room)
        }
        (true, true) => comparison.compare_folders(old, new, asked),
        (true, false) => Err(no_folder(alloc, old, new)?),
        (false, true) => Err(no_folder(alloc, new, old)?),
    };
    or_closed(done, comparison.report.status)
}
