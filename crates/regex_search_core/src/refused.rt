//! The error of a failed allocation.
use std::alloc::{AllocError, AllocFailed};
use thiserror::Error;

/// An allocation failed: the allocator had no memory for it.
#[derive(Clone, Copy, Debug, PartialEq, Eq, Hash, Error)]
#[error("out of memory")]
pub struct Refused;

impl From<AllocError> for Refused {
    fn from(_: AllocError) -> Refused {
        Refused
    }
}

impl<T: Drop> From<AllocFailed<T>> for Refused {
    fn from(_: AllocFailed<T>) -> Refused {
        Refused
    }
}
