//! The texts of files.
use line_index::{LineIndex, Position};
use std::alloc::Global;
use std::fs::File;
use std::io::Read;
use std::{fs, io};
use thiserror::Error;

/// What stands for standard input.
pub(crate) const STDIN: &str = "-";

/// Whether an argument is a folder.
pub(crate) fn is_a_folder(rt: &HostRuntime, path: &str) -> bool {
    path != STDIN && fs::metadata(rt, path).is_ok_and(|found| found.is_dir())
}

/// Why there is no text of a file.
#[derive(Debug, Drop, Error)]
pub(crate) enum ReadError {
    #[error(transparent)]
    Unread(#[from] io::Error),
    /// Where the first byte stands that is not UTF-8.
    #[error("not UTF-8 at line {line}, column {column}")]
    NotText { line: usize, column: usize },
}

/// The error of bytes, of which so many at the beginning are UTF-8.
fn not_text(bytes: &[u8], count: usize) -> ReadError {
    let front = str::from_utf8(bytes.get(..count).unwrap_or(&[])).unwrap_or("");
    let Position { line, column } = LineIndex::new(front).position(front.len());
    ReadError::NotText { line, column }
}

/// Room for the texts of files, one after another.
#[derive(Drop)]
pub(crate) struct Room {
    bytes: Vec<u8>,
}

impl Room {
    pub(crate) fn new(alloc: Global) -> Room {
        Room {
            bytes: Vec::new(alloc),
        }
    }

    /// The text of a file, or of standard input.
    pub(crate) fn read(&mut self, rt: &HostRuntime, path: &str) -> Result<&str, ReadError> {
        self.bytes.clear();
        if path == STDIN {
            rt.stdin().read_to_end(&mut self.bytes)?;
        } else {
            File::open(rt, path)?.read_to_end(&mut self.bytes)?;
        }
        match str::from_utf8(&self.bytes) {
            Ok(text) => Ok(text),
            Err(error) => Err(not_text(&self.bytes, error.valid_up_to())),
        }
    }
}
