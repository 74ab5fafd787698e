//! What a command over files tells, and the status that it ends with.
use crate::commands::{FAILED, NOT_SO};
use crate::escapes::Shown;
use crate::failure::Failure;
use crate::files::Room;
use crate::output::{Progress, complain, form, write_out};
use crate::walk::Fault;
use itemtree_options::Asked;
use list_forms::Form;
use std::alloc::AllocError;
use std::fmt::Display;

/// What is told, with `status` as `diff` and `grep` have it.
#[derive(Drop)]
pub(crate) struct Report<'a> {
    pub(crate) rt: &'a HostRuntime,
    pub(crate) form: Form,
    pub(crate) status: u8,
    /// Whether anything was written.
    pub(crate) has_written: bool,
    /// Whether nothing is written after all.
    is_quiet: bool,
    progress: Progress<'a>,
}

impl<'a> Report<'a> {
    pub(crate) fn new(rt: &'a HostRuntime, asked: &Asked<'_>) -> Report<'a> {
        Report {
            rt,
            form: form(rt, asked),
            status: 0,
            has_written: false,
            is_quiet: asked.is_quiet,
            progress: Progress::new(rt),
        }
    }
}

impl Report<'_> {
    pub(crate) fn is_colored(&self) -> bool {
        match self.form {
            Form::Line { is_colored } => is_colored,
            Form::Json => false,
        }
    }

    /// How a path is written: lines are for people, and show what terminals can.
    pub(crate) fn path_of(&self, path: &str) -> Result<String, AllocError> {
        match self.form {
            Form::Json => String::from_str(self.rt.alloc(), path),
            Form::Line { .. } => Shown(path).text(self.rt.alloc()),
        }
    }

    pub(crate) fn write(&mut self, text: &str) -> Result<(), Failure> {
        if text.is_empty() {
            return Ok(());
        }
        self.has_written = true;
        if self.is_quiet {
            return Ok(());
        }
        self.progress.clear();
        write_out(self.rt, text)
    }

    /// Writes what tells that all is not as it should be.
    pub(crate) fn write_wrong(&mut self, text: &str) -> Result<(), Failure> {
        self.status = self.status.max(NOT_SO);
        self.write(text)
    }

    /// Tells on standard error what there is to tell, if anything.
    pub(crate) fn tell(&mut self, lines: &str) {
        if !lines.is_empty() {
            self.progress.clear();
            let _ = eprint!(self.rt; "{lines}");
        }
    }

    /// Tells so that all is not as it should be, if there is anything to tell.
    pub(crate) fn tell_wrong(&mut self, lines: &str) {
        if !lines.is_empty() {
            self.status = self.status.max(NOT_SO);
        }
        self.tell(lines);
    }

    /// Takes away what is told of the progress.
    pub(crate) fn clear(&mut self) {
        self.progress.clear();
    }

    pub(crate) fn tell_progress(&mut self, done: usize, count: usize) {
        if done == count {
            self.progress.clear();
        } else {
            self.progress.tell(done, count);
        }
    }

    /// The run fails, and standard error is free to tell of it.
    pub(crate) fn fail(&mut self) {
        self.status = FAILED;
        self.progress.clear();
    }

    /// Tells on standard error that a file is not done.
    pub(crate) fn complain(&mut self, path: impl Display + Drop, error: impl Display + Drop) {
        self.fail();
        complain(self.rt, path, error);
    }

    pub(crate) fn complain_of(&mut self, faults: &[Fault]) {
        for fault in faults {
            self.complain(Shown(&fault.path), fault.reason.as_str());
        }
    }

    /// The text of a file, if it can be read.
    pub(crate) fn read<'r>(&mut self, path: &str, room: &'r mut Room) -> Option<&'r str> {
        match room.read(self.rt, path) {
            Ok(text) => Some(text),
            Err(error) => {
                self.complain(Shown(path), error);
                None
            }
        }
    }
}
