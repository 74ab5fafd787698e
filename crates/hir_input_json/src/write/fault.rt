//! Why a value is not written.
ghost use Rattle.hir_input.specs.Equality.{DecidesEq, IsCopied};
ghost use Rattle.std.specs.Prelude.{◌≡◌};
ghost use Rattle.hir_input_json.specs.declared.write.fault.WriteFault.TheVariants.{OutOfMemory};

use serde_json::Value;
use std::alloc::{AllocError, AllocFailed};
use thiserror::Error;

/// Why a writing function has no answer.
#[derive(Clone, Copy, Debug, PartialEq, Eq, Error)]
pub enum WriteFault {
    /// No JSON is read as the value.
    #[error("no form")]
    NoForm,
    #[error("out of memory")]
    OutOfMemory,
}

/// What a writing function answers.
pub(crate) type Written = Result<Value, WriteFault>;

impl<T: Drop> From<AllocFailed<T>> for WriteFault {
    ghost from_gives = { λ _ e. e ≡ OutOfMemory };

    fn from(_failed: AllocFailed<T>) -> WriteFault {
        WriteFault::OutOfMemory
    }
}

impl From<AllocError> for WriteFault {
    ghost from_gives = { λ _ e. e ≡ OutOfMemory };

    fn from(_failed: AllocError) -> WriteFault {
        WriteFault::OutOfMemory
    }
}

// `==` decides whether two faults are one, and a copy is its source: the derives are held to it by these clauses.
fn laws()
    ensures equal { DecidesEq ⟦<WriteFault as PartialEq>⟧.eq }
    ensures copied { IsCopied ⟦<WriteFault as Clone>⟧.is_clone }
{}
