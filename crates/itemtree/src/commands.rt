//! The commands, file by file.
use crate::crate_commands::{CratesFound, crates_found};
use crate::escapes::Shown;
use crate::failure::Failure;
use crate::files::{Room, STDIN};
use crate::hints::better_edition;
use crate::output::complain;
use crate::packages::Crates;
use crate::report::Report;
use crate::sources::files_of;
use crate::tag_form::form_of;
use crate::tag_paths::TagPaths;
use crate::tags::{TagsFile, head, write_tags};
use itemtree_commands::{
    Options, SourceError, check, duplicates, find, imports, outline, outline_json, page, tags,
};
use itemtree_options::{Asked, Command, OutlineAsked};
use list_forms::Form;
use source_listing::{Pattern, Query, Source, sought_pattern};
use source_tags::TagForm;
use std::alloc::{AllocError, Global};
use std::io;

/// The status where a name is not found, a file is not clean, or files differ, as that of `grep` and `diff`.
pub(crate) const NOT_SO: u8 = 1;

/// The status of an error.
pub(crate) const FAILED: u8 = 2;

/// A command over files.
#[derive(Drop)]
struct Run<'a> {
    report: Report<'a>,
    asked: &'a Asked<'a>,
    options: &'a Options,
    /// The crates whose files are taken.
    crates: Option<&'a Crates>,
    /// What is to be found, if anything is.
    sought: Option<Pattern>,
    /// The lines of a tags file behind its head, in one text: a piece of memory for each takes half as much again.
    tags: String,
    tag_form: TagForm,
    tag_paths: TagPaths<'a>,
    /// Whether any file was done.
    has_done: bool,
    /// Whether it was told that less is wrong in another edition.
    has_told_edition: bool,
}

impl Run<'_> {
    fn find(&self, source: Source<'_>, ignores_case: bool) -> Result<String, SourceError> {
        let alloc = self.report.rt.alloc();
        let Some(sought) = &self.sought else {
            return Ok(String::new(alloc));
        };
        let query = Query {
            scope: sought.scope.as_str(),
            name: sought.name.as_str(),
            is_anywhere: sought.is_anywhere,
            ignores_case,
            kinds: self.asked.kinds.as_slice(),
            only_active: self.options.only_active,
            form: self.report.form,
        };
        find(alloc, source, self.options, query, self.asked.has_members)
    }

    fn push_tags(&mut self, source: Source<'_>, has_bodies: bool) -> Result<String, SourceError> {
        let (alloc, has_members, form) = (
            self.report.rt.alloc(),
            self.asked.has_members,
            self.tag_form,
        );
        // (all of a file's at once: where memory runs out, there are none)
        self.tags.push_str(&tags(alloc, source, self.options, form, has_members, has_bodies)?)?;
        Ok(String::new(alloc))
    }

    fn outline(&self, source: Source<'_>, look: OutlineAsked) -> Result<String, SourceError> {
        let (alloc, options) = (self.report.rt.alloc(), self.options);
        let has_members = self.asked.has_members;
        match self.report.form {
            Form::Json if !look.is_flat => {
                outline_json(alloc, source, options, look.depth, has_members)
            }
            form => outline(
                alloc,
                source,
                options,
                look.depth,
                has_members,
                look.has_imports,
                form,
                look.is_flat,
            ),
        }
    }

    /// What is written of a file, and whether the file is as it should be.
    fn answer(&mut self, source: Source<'_>) -> Result<(String, bool), SourceError> {
        let (alloc, options) = (self.report.rt.alloc(), self.options);
        let text = match self.asked.command {
            Command::Outline(look) => self.outline(source, look)?,
            Command::Page { has_ids } => page(alloc, source.text, options, has_ids)?,
            Command::Imports => imports(alloc, source, options, self.report.form)?,
            Command::Duplicates => {
                let text = duplicates(alloc, source, options, self.report.is_colored())?;
                let is_none = text.is_empty();
                return Ok((text, is_none));
            }
            Command::Find { ignores_case, .. } => self.find(source, ignores_case)?,
            Command::Tags { has_bodies, .. } => self.push_tags(source, has_bodies)?,
            Command::Check
            | Command::Resolve { .. }
            | Command::Modules { .. }
            | Command::Changed { .. }
            | Command::Request { .. }
            | Command::Serve
            | Command::Lsp => {
                let checked = check(alloc, source, options, self.report.is_colored())?;
                return Ok((checked.text, checked.is_clean));
            }
        };
        Ok((text, true))
    }

    fn path_of(&self, path: &str) -> Result<String, AllocError> {
        match self.asked.command {
            Command::Tags { .. } => self.tag_paths.path_of(self.report.rt.alloc(), path),
            _ => self.report.path_of(path),
        }
    }

    /// Tells of the first text in which less is wrong in an earlier edition, where none is asked for.
    fn tell_edition(&mut self, source: Source<'_>, length: usize) -> Result<(), AllocError> {
        if self.asked.is_quiet
            || self.asked.has_edition
            || self.crates.is_some()
            || self.has_told_edition
        {
            return Ok(());
        }
        let (alloc, is_colored) = (self.report.rt.alloc(), self.report.is_colored());
        let Some(year) = better_edition(alloc, source, is_colored, length)? else {
            return Ok(());
        };
        self.has_told_edition = true;
        self.report.clear();
        let path = source.path;
        let _ = eprintln!(self.report.rt;
            "itemtree: {path}: less is wrong with --edition {year}; without it, 2024 is taken"
        );
        Ok(())
    }

    fn do_text(&mut self, path: &str, text: &str) -> Result<(), Failure> {
        let written = self.path_of(path)?;
        let source = Source {
            path: written.as_str(),
            text,
        };
        let (text, is_good) = match self.answer(source) {
            Ok(answer) => answer,
            Err(error) => {
                self.report.complain(Shown(path), error);
                return Ok(());
            }
        };
        self.has_done = true;
        if is_good {
            return self.report.write(&text);
        }
        self.report.write_wrong(&text)?;
        if let Command::Check = self.asked.command {
            self.tell_edition(source, text.len())?;
        }
        Ok(())
    }

    /// The files that are asked for, and what is told behind them.
    fn sources(&mut self) -> Result<CratesFound, Failure> {
        let rt = self.report.rt;
        if let Some(crates) = self.crates {
            let wants_imports = matches!(self.asked.command, Command::Check);
            return crates_found(&mut self.report, self.options, crates, wants_imports);
        }
        let found = files_of(rt, self.asked)?;
        self.report.complain_of(&found.faults);
        Ok(CratesFound {
            files: found.files,
            unresolved: String::new(rt.alloc()),
            imports: String::new(rt.alloc()),
        })
    }

    /// Tells what is wrong with modules, and with imports if nothing is wrong with the files: what is missing there may
    /// be what is damaged.
    fn tell_crates(&mut self, found: &CratesFound) -> Result<(), Failure> {
        if self.report.status == 0 && !found.imports.is_empty() {
            self.report.write_wrong(&found.imports)?;
        }
        if !found.unresolved.is_empty() {
            self.report.write_wrong(&found.unresolved)?;
        }
        Ok(())
    }

    fn do_all(&mut self) -> Result<(), Failure> {
        let found = self.sources()?;
        let mut room = Room::new(self.report.rt.alloc());
        for (before, file) in found.files.iter().enumerate() {
            if let Some(text) = self.report.read(file, &mut room) {
                self.do_text(file, text)?;
            }
            self.report.tell_progress(before + 1, found.files.len());
        }
        match self.asked.command {
            Command::Check => self.tell_crates(&found),
            _ => Ok(()),
        }
    }
}

/// What is to be found, if anything is.
fn sought_of(alloc: Global, command: Command<'_>) -> Result<Option<Pattern>, Failure> {
    let Command::Find { name, ignores_case } = command else {
        return Ok(None);
    };
    if let Some(sought) = sought_pattern(alloc, ignores_case, name)? {
        return Ok(Some(sought));
    }
    let message = format!(in alloc;
        "find '{name}': this is neither a name, as f, r#fn or *Map, nor a path of names, as b::f or ::a::b::f"
    )?;
    Err(Failure::Usage(message))
}

/// What a tags file begins with, if one is written.
fn tags_of(alloc: Global, command: Command<'_>) -> Result<String, AllocError> {
    match command {
        Command::Tags { excmd, .. } => head(alloc, excmd),
        _ => Ok(String::new(alloc)),
    }
}

/// Writes the tags. If nothing could be read, those that stand are better than none.
fn finish_tags(
    rt: &HostRuntime,
    file: TagsFile<'_>,
    lines: String,
    status: u8,
    has_done: bool,
) -> Result<u8, Failure> {
    if !has_done {
        let reason = "not written, because nothing could be read";
        complain(rt, Shown(file.name()), reason);
        return Ok(FAILED);
    }
    or_closed(write_tags(rt, file, lines), status)?;
    if status == FAILED {
        let reason = "written without what could not be read";
        complain(rt, Shown(file.name()), reason);
    }
    Ok(status)
}

/// Ends a run: writes the tags, and gives the status.
fn finish(run: Run<'_>) -> Result<u8, Failure> {
    let Run {
        report,
        asked,
        tags,
        has_done,
        ..
    } = run;
    let (rt, status) = (report.rt, report.status);
    match asked.command {
        Command::Tags {
            output,
            is_named,
            is_appended,
            ..
        } => {
            let file = TagsFile {
                path: output,
                is_named,
                is_appended,
            };
            finish_tags(rt, file, tags, status, has_done)
        }
        Command::Find { .. } if !report.has_written => Ok(status.max(NOT_SO)),
        _ => Ok(status),
    }
}

/// The status of a run. Where nobody reads on, it ends with that which stands.
pub(crate) fn or_closed(done: Result<(), Failure>, status: u8) -> Result<u8, Failure> {
    match done {
        Ok(()) | Err(Failure::Closed) => Ok(status),
        Err(failure) => Err(failure),
    }
}

/// Whether the tags file can be one.
fn refuse_output(alloc: Global, asked: &Asked<'_>) -> Result<(), Failure> {
    let message = match asked.command {
        Command::Tags { output: "", .. } => "--output: an empty path names no file",
        Command::Tags {
            output: STDIN,
            is_appended: true,
            ..
        } => "--append: standard output keeps nothing",
        _ => return Ok(()),
    };
    Err(Failure::Usage(String::from_str(alloc, message)?))
}

/// Does a command over files, which may be those of crates, and gives the status to end with.
pub(crate) fn run_files(
    rt: &HostRuntime,
    options: &Options,
    asked: &Asked<'_>,
    crates: Option<&Crates>,
) -> Result<u8, Failure> {
    refuse_output(rt.alloc(), asked)?;
    let mut run = Run {
        report: Report::new(rt, asked),
        asked,
        options,
        crates,
        sought: sought_of(rt.alloc(), asked.command)?,
        tags: tags_of(rt.alloc(), asked.command)?,
        tag_form: form_of(rt.alloc(), asked.command)?,
        tag_paths: TagPaths::new(rt, asked.command)?,
        has_done: false,
        has_told_edition: false,
    };
    match run.do_all() {
        Ok(()) => finish(run),
        closed => or_closed(closed, run.report.status),
    }
}
