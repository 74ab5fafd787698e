//! Runs over memory, with readers and writers that fail, and the texts of errors.
use item_tree_request::{RunError, run};
use std::alloc::Global;
use std::io::{Read, Write};

pub(crate) const ROOM: usize = 4096;

const MOST_READS: u32 = 16_777_216;

// A space a read, without end.
#[derive(Drop)]
struct Endless {
    reads: u32,
    least_room: usize,
}

impl Read for Endless {
    fn read(&mut self, buf: &mut [u8]) -> std::io::Result<usize> {
        self.reads = self.reads.saturating_add(1);
        self.least_room = self.least_room.min(buf.len());
        if buf.is_empty() {
            return Ok(0);
        }
        buf[0] = b' ';
        Ok(1)
    }
}

fn ends_after_most_reads(alloc: Global) -> bool {
    let mut input = Endless {
        reads: 0,
        least_room: usize::MAX,
    };
    let mut output = Vec::new(alloc);
    let outcome = run(alloc, &mut input, &mut output);
    matches!(outcome, Err(RunError::Read))
        && input.reads == MOST_READS
        && input.least_room >= ROOM
        && output.is_empty()
}

#[test]
fn never_ends(rt: HostRuntime) {
    assert!(rt; ends_after_most_reads(rt.alloc()));
}
