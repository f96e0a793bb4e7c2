//! That memory was refused, and nothing else.
//!
//! The family Ground. `OutOfMemory` is made here alone, of what a call of std answers where it
//! refuses memory. Std's own error can be written by any code, so none but this names it
//! (`bench/memory_error.sh`): who answers `OutOfMemory` has met a refusal, or was handed one.
//! `specs/Refused.antt` has its only value.
#![tactic(auto)]

use std::alloc::{AllocError, AllocFailed};

/// That an allocation of std was refused.
#[derive(Clone, Copy, Debug, Drop, PartialEq, Eq)]
pub struct OutOfMemory {
    error: AllocError,
}

impl From<AllocError> for OutOfMemory {
    fn from(error: AllocError) -> OutOfMemory {
        OutOfMemory { error }
    }
}

impl<T: Drop> From<AllocFailed<T>> for OutOfMemory {
    fn from(refused: AllocFailed<T>) -> OutOfMemory {
        OutOfMemory {
            error: AllocError::from(refused),
        }
    }
}
