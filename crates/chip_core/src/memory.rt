//! Out of memory.

use std::alloc::{AllocError, AllocFailed};
use thiserror::Error;

/// The allocator is out of memory.
///
/// An ordinary result of every call with an allocator; all that it borrowed is then unchanged.
#[derive(Clone, Copy, PartialEq, Eq, Debug, Error)]
#[error("out of memory")]
pub struct OutOfMemory;

impl From<AllocError> for OutOfMemory {
    fn from(_refused: AllocError) -> OutOfMemory {
        OutOfMemory
    }
}

impl<T: Drop> From<AllocFailed<T>> for OutOfMemory {
    fn from(_refused: AllocFailed<T>) -> OutOfMemory {
        OutOfMemory
    }
}
