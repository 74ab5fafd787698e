//! Why a value is not read.
ghost use Rattle.std.specs.Prelude.{◌≡◌, decimal};
ghost use Rattle.hir_input_json.specs.Reads.{IsAt, IsHere, IsReadIn, IsUnder};
ghost use Rattle.hir_input_json.specs.declared.fault.Fault.TheVariants.{OutOfMemory};

use crate::pointer::Pointer;
use std::alloc::{AllocError, AllocFailed, Global};
use thiserror::Error;

/// Why a reading function has no answer.
#[derive(Debug, Drop, Error)]
pub enum Fault {
    /// A value is not of its form: the first such one, and where it stands in the value that was to be read.
    #[error("wrong form")]
    WrongForm { pointer: Pointer },
    /// The allocator refused memory.
    #[error("out of memory")]
    OutOfMemory,
}

impl<T: Drop> From<AllocFailed<T>> for Fault {
    ghost from_gives = { λ _ e. e ≡ OutOfMemory };

    fn from(_failed: AllocFailed<T>) -> Fault {
        Fault::OutOfMemory
    }
}

impl From<AllocError> for Fault {
    ghost from_gives = { λ _ e. e ≡ OutOfMemory };

    fn from(_failed: AllocError) -> Fault {
        Fault::OutOfMemory
    }
}

impl Fault {
    /// The value that was to be read is itself not of its form.
    pub fn here(alloc: Global) -> Fault
        ensures { IsHere result }
    {
        Fault::WrongForm {
            pointer: Pointer::new(alloc),
        }
    }

    /// A member of the value that was to be read is not of its form, or not there.
    ///
    /// If memory runs out for the pointer, it is `OutOfMemory`.
    pub fn at(alloc: Global, key: &str) -> Fault
        ensures { IsAt key.now result }
    {
        Fault::here(alloc).in_member(alloc, key)
    }

    /// The fault of a member, told of the object that holds it at this key.
    ///
    /// If memory runs out for the longer pointer, it is `OutOfMemory`.
    pub fn in_member(self, alloc: Global, key: &str) -> Fault
        ensures { IsUnder key.now self result }
    {
        match self {
            Fault::WrongForm { pointer } => match pointer.in_member(alloc, key) {
                Ok(pointer) => Fault::WrongForm { pointer },
                Err(_) => Fault::OutOfMemory,
            },
            Fault::OutOfMemory => Fault::OutOfMemory,
        }
    }

    /// The fault of an item, told of the array that holds it at this place, counted from 0.
    ///
    /// If memory runs out for the longer pointer, it is `OutOfMemory`.
    pub fn in_item(self, alloc: Global, place: usize) -> Fault
        ensures { IsUnder (decimal place) self result }
    {
        match self {
            Fault::WrongForm { pointer } => match pointer.in_item(alloc, place) {
                Ok(pointer) => Fault::WrongForm { pointer },
                Err(_) => Fault::OutOfMemory,
            },
            Fault::OutOfMemory => Fault::OutOfMemory,
        }
    }
}

/// What was read of a part of a value, told of that value.
pub trait ReadIn: Sized {
    /// As it is; a fault is told of the object that holds the part at this key, as by [`Fault::in_member`].
    fn in_member(self, alloc: Global, key: &str) -> Self;

    /// As it is; a fault is told of the array that holds the part at this place, as by [`Fault::in_item`].
    fn in_item(self, alloc: Global, place: usize) -> Self;
}

impl<T: Drop> ReadIn for Result<T, Fault> {
    fn in_member(self, alloc: Global, key: &str) -> Result<T, Fault>
        ensures { IsReadIn key.now self result }
    {
        match self {
            Ok(read) => Ok(read),
            Err(fault) => Err(fault.in_member(alloc, key)),
        }
    }

    fn in_item(self, alloc: Global, place: usize) -> Result<T, Fault>
        ensures { IsReadIn (decimal place) self result }
    {
        match self {
            Ok(read) => Ok(read),
            Err(fault) => Err(fault.in_item(alloc, place)),
        }
    }
}
