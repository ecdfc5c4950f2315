//! The answer where memory ran out.

use std::alloc::{AllocError, AllocFailed};

/// Memory ran out. It is the one answer that may come at any allocation.
#[derive(Clone, Copy)]
pub struct Memory;

impl From<AllocError> for Memory {
    fn from(_error: AllocError) -> Memory {
        Memory
    }
}

impl<T: Drop> From<AllocFailed<T>> for Memory {
    fn from(_error: AllocFailed<T>) -> Memory {
        Memory
    }
}
