//! What ends a run early.
use crate::escapes::Shown;
use std::alloc::{AllocError, Global};
use std::fmt::Display;
use std::io;

/// Why a run ends early.
#[derive(Debug, Drop)]
pub(crate) enum Failure {
    /// Nobody reads what is written.
    Closed,
    /// The command line is wrong, or names what cannot be written.
    Usage(String),
    /// This cannot be written.
    Unwritten { path: String, error: io::Error },
    Other(io::Error),
}

impl From<io::Error> for Failure {
    fn from(error: io::Error) -> Failure {
        if error.kind() == io::ErrorKind::BrokenPipe {
            Failure::Closed
        } else {
            Failure::Other(error)
        }
    }
}

impl From<AllocError> for Failure {
    fn from(error: AllocError) -> Failure {
        Failure::Other(io::Error::from(error))
    }
}

/// Why a file cannot be read or written as it is asked.
pub(crate) fn refusal(
    alloc: Global,
    path: &str,
    reason: impl Display + Drop,
) -> Result<Failure, AllocError> {
    let path = Shown(path);
    Ok(Failure::Usage(format!(in alloc; "{path}: {reason}")?))
}
