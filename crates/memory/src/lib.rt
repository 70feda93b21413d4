//! Want of memory as a fault: the one fault that any call may have which allocates, and the one word for
//! contracts of such calls.
#![tactic(auto)]

use std::alloc::{AllocError, AllocFailed};
use thiserror::Error;

/// There was no memory for what was asked.
#[derive(Clone, Copy, Debug, PartialEq, Eq, Error)]
#[error("out of memory")]
pub struct NoMemory;

impl From<AllocError> for NoMemory {
    fn from(_fault: AllocError) -> NoMemory {
        NoMemory
    }
}

impl<T: Drop> From<AllocFailed<T>> for NoMemory {
    fn from(_fault: AllocFailed<T>) -> NoMemory {
        NoMemory
    }
}

/// A fault that says no more than that there was no memory.
pub trait OutOfMemory: Drop {}

impl OutOfMemory for NoMemory {}

impl OutOfMemory for AllocError {}

impl<T: Drop> OutOfMemory for AllocFailed<T> {}
