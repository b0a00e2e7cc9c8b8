ghost use Rattle.std.specs.Prelude.{◌≡◌};
ghost use Rattle.ram_block.specs.declared.no_memory.NoMemory.{NoMemory};

use std::alloc::{AllocError, AllocFailed};

/// The answer of a call for which memory ran out.
#[derive(Clone, Copy, Debug, PartialEq, Eq)]
pub struct NoMemory;

impl From<AllocError> for NoMemory {
    fn from(_: AllocError) -> Self {
        NoMemory
    }
}

impl<T: Drop> From<AllocFailed<T>> for NoMemory {
    fn from(_: AllocFailed<T>) -> Self {
        NoMemory
    }
}
