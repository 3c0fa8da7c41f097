use rj_num::NoMemory;
use std::alloc::{AllocError, AllocFailed};

/// There is no memory.
#[derive(Clone, Copy, Debug, PartialEq, Eq)]
pub struct OutOfMemory;

impl From<AllocError> for OutOfMemory {
    fn from(_: AllocError) -> OutOfMemory {
        OutOfMemory
    }
}

impl<T: Drop> From<AllocFailed<T>> for OutOfMemory {
    fn from(_: AllocFailed<T>) -> OutOfMemory {
        OutOfMemory
    }
}

impl From<NoMemory> for OutOfMemory {
    fn from(_: NoMemory) -> OutOfMemory {
        OutOfMemory
    }
}
