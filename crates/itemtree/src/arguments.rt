//! The words of the command line.
use crate::failure::Failure;
use std::alloc::AllocError;
use std::env::FillError;
use std::rt::Env;

/// Room for most words.
const USUAL_LENGTH: usize = 256;

/// The bytes of a word; nothing behind the last one.
fn word(rt: &HostRuntime, at: usize) -> Result<Option<Vec<u8>>, AllocError> {
    let mut bytes = Vec::new(rt.alloc());
    let mut room = USUAL_LENGTH;
    for _turn in 0..usize::BITS {
        bytes.resize(room, 0u8)?;
        match rt.arg(at, bytes.as_mut_slice()) {
            Ok(length) => {
                bytes.truncate(length);
                return Ok(Some(bytes));
            }
            Err(FillError::NotPresent) => return Ok(None),
            Err(FillError::TooLong) => room = room.saturating_mul(2),
        }
    }
    Err(AllocError)
}

/// The words of the command line, the program's name first. Each has to be UTF-8.
pub(crate) fn words(rt: &HostRuntime) -> Result<Vec<String>, Failure> {
    let alloc = rt.alloc();
    let mut words = Vec::new(alloc);
    for at in 0..usize::MAX {
        let Some(bytes) = word(rt, at)? else {
            break;
        };
        match String::from_utf8(bytes) {
            Ok(word) => words.push(word).map_err(AllocError::from)?,
            Err(error) => {
                let shown = String::from_utf8_lossy(alloc, error.as_bytes())?;
                let message = format!(in alloc; "argument {at} is not UTF-8: {shown}")?;
                return Err(Failure::Usage(message));
            }
        }
    }
    Ok(words)
}
