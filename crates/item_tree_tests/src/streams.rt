//! Readers and writers that fail, and show what reaches them.
use std::alloc::Global;
use std::io::{self, Read, Write};

// Shows what was flushed alone.
#[derive(Drop)]
pub(crate) struct Screen {
    pub(crate) waiting: Vec<u8>,
    pub(crate) shown: Vec<u8>,
    writes: u32,
    most_writes: u32,
}

impl Screen {
    pub(crate) fn new(alloc: Global, most_writes: u32) -> Screen {
        Screen {
            waiting: Vec::new(alloc),
            shown: Vec::new(alloc),
            writes: 0,
            most_writes,
        }
    }
}

// Takes three bytes a write at most.
impl Write for Screen {
    fn write(&mut self, buf: &[u8]) -> io::Result<usize> {
        if self.writes >= self.most_writes {
            return Ok(0);
        }
        self.writes += 1;
        let count = buf.len().min(3);
        self.waiting.extend_from_slice(&buf[..count])?;
        Ok(count)
    }

    fn flush(&mut self) -> io::Result<()> {
        self.shown.extend_from_slice(&self.waiting)?;
        self.waiting.clear();
        Ok(())
    }
}

// Fails after its bytes, and is interrupted before each read.
#[derive(Drop)]
pub(crate) struct Failing<'a> {
    pub(crate) rest: &'a [u8],
    pub(crate) is_interrupted: bool,
}

impl Read for Failing<'_> {
    fn read(&mut self, buf: &mut [u8]) -> io::Result<usize> {
        self.is_interrupted = !self.is_interrupted;
        if self.is_interrupted {
            return Err(io::Error::from(io::ErrorKind::Interrupted));
        }
        if self.rest.is_empty() {
            return Err(io::Error::from(io::ErrorKind::Other));
        }
        let (mut piece, _) = self.rest.split_at(self.rest.len().min(2));
        let count = piece.read(buf)?;
        self.rest = &self.rest[count..];
        Ok(count)
    }
}

// Counts line feeds, for which no memory is wanted.
#[derive(Drop)]
pub(crate) struct Feeds {
    pub(crate) count: usize,
}

impl Write for Feeds {
    fn write(&mut self, buf: &[u8]) -> io::Result<usize> {
        let count = buf.iter().filter(|byte| **byte == b'\n').count();
        self.count = self.count.saturating_add(count);
        Ok(buf.len())
    }

    fn flush(&mut self) -> io::Result<()> {
        Ok(())
    }
}
