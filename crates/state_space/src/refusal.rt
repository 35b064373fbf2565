//! Why something was refused.

use std::alloc::{AllocError, AllocFailed};

/// Why an entry was refused, or a search. It is never a verdict.
#[derive(Clone, Copy, PartialEq, Eq, Debug)]
pub enum Refused {
    /// The system gave no memory.
    Memory,
    /// There are 2^32 - 2 entries.
    Numbers,
}

impl From<AllocError> for Refused {
    fn from(_error: AllocError) -> Refused {
        Refused::Memory
    }
}

impl<T: Drop> From<AllocFailed<T>> for Refused {
    fn from(_failed: AllocFailed<T>) -> Refused {
        Refused::Memory
    }
}
