//! Marks for tests of what takes no memory.
use std::alloc::{AllocError, Global};

/// Bytes that a test asks for where `tests/refuse_memory.c` is to refuse each further request.
const NONE_LEFT: usize = 99_991;

/// Bytes that it asks for where requests are to be answered again.
const LEFT_AGAIN: usize = 99_989;

fn ask(alloc: Global, bytes: usize) -> Result<(), AllocError> {
    let mut room: Vec<u8> = Vec::with_capacity(alloc, bytes)?;
    room.push(0)?;
    Ok(())
}

/// Makes the request from which on no memory is left, where `tests/refuse_memory.c` is told so, and one more, which it
/// then refuses. Else they are requests like others.
pub fn leave_none(alloc: Global) -> Result<(), AllocError> {
    ask(alloc, NONE_LEFT)?;
    match ask(alloc, 1) {
        Ok(()) | Err(AllocError) => Ok(()),
    }
}

/// Makes the request from which on there is memory again.
pub fn leave_again(alloc: Global) -> Result<(), AllocError> {
    ask(alloc, LEFT_AGAIN)
}
