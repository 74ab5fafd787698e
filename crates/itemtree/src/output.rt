//! What is written on standard output, and told on standard error.
use crate::failure::Failure;
use itemtree_options::Asked;
use list_forms::Form;
use std::alloc::Global;
use std::env::FillError;
use std::fmt::Display;
use std::io;
use std::io::{IsTerminal, Write};
use std::rt::Env;
use std::time::Instant;

/// How standard output is called.
pub(crate) const STDOUT: &str = "standard output";

/// Back to the begin of the line on a terminal, and nothing on it.
const CLEARED: &str = "\r\x1b[K";

/// Why a file is not written. That nobody reads it is no fault.
pub(crate) fn write_failure(alloc: Global, path: &str, error: io::Error) -> Failure {
    if error.kind() == io::ErrorKind::BrokenPipe {
        return Failure::Closed;
    }
    match String::from_str(alloc, path) {
        Ok(path) => Failure::Unwritten { path, error },
        Err(error) => Failure::from(error),
    }
}

pub(crate) fn write_out(rt: &HostRuntime, text: &str) -> Result<(), Failure> {
    match rt.stdout().write_all(text.as_bytes()) {
        Ok(()) => Ok(()),
        Err(error) => Err(write_failure(rt.alloc(), STDOUT, error)),
    }
}

/// Whether the variable `NO_COLOR` is set, and not empty.
fn wants_no_color(rt: &HostRuntime) -> bool {
    let mut begin = [0u8; 1];
    match rt.var("NO_COLOR", &mut begin) {
        Ok(length) => length > 0,
        Err(FillError::TooLong) => true,
        Err(FillError::NotPresent) => false,
    }
}

/// Whether the variable `TERM` tells of a terminal that knows no colours.
fn is_dumb(rt: &HostRuntime) -> bool {
    let mut name = [0u8; 4];
    match rt.var("TERM", &mut name) {
        Ok(length) => length == 4 && name.as_slice() == b"dumb".as_slice(),
        Err(_) => false,
    }
}

/// Whether standard output is in colour, as `--color` says or the terminal.
fn is_colored(rt: &HostRuntime, wanted: Option<bool>) -> bool {
    match wanted {
        Some(is_colored) => is_colored,
        None => rt.stdout().is_terminal() && !wants_no_color(rt) && !is_dumb(rt),
    }
}

/// How the entries of lists are written, as `--json` and `--color` say.
pub(crate) fn form(rt: &HostRuntime, asked: &Asked<'_>) -> Form {
    if asked.is_json {
        return Form::Json;
    }
    Form::Line {
        is_colored: is_colored(rt, asked.is_colored),
    }
}

/// Tells on standard error what there is to say of a file.
pub(crate) fn complain(rt: &HostRuntime, path: impl Display + Drop, what: impl Display + Drop) {
    let _ = eprintln!(rt; "itemtree: {path}: {what}");
}

/// How many files are done: told on standard error once a second, where that is a terminal, and taken away before
/// anything else is written.
#[derive(Drop)]
pub(crate) struct Progress<'a> {
    rt: &'a HostRuntime,
    /// When it was told last, or when it began; nothing where nobody sees it.
    told_at: Option<Instant>,
    is_shown: bool,
}

impl<'a> Progress<'a> {
    pub(crate) fn new(rt: &'a HostRuntime) -> Progress<'a> {
        let told_at = if rt.stderr().is_terminal() {
            Instant::now(rt).ok()
        } else {
            None
        };
        Progress {
            rt,
            told_at,
            is_shown: false,
        }
    }

    pub(crate) fn tell(&mut self, done: usize, count: usize) {
        let (Some(told_at), Ok(now)) = (self.told_at, Instant::now(self.rt)) else {
            return;
        };
        if now.duration_since(told_at).as_secs() == 0 {
            return;
        }
        self.told_at = Some(now);
        self.is_shown = true;
        let _ = eprint!(self.rt; "{CLEARED}{done} of {count} files");
    }

    pub(crate) fn clear(&mut self) {
        if self.is_shown {
            self.is_shown = false;
            let _ = eprint!(self.rt; "{CLEARED}");
        }
    }
}
