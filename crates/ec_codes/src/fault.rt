// Why bytes are no code.
ghost use Rattle.std.specs.Prelude.{◌≡◌};
ghost use Rattle.ec_codes.specs.declared.fault.CodeFault.TheVariants as fault;

use std::alloc::{AllocError, AllocFailed};
use thiserror::Error;

/// Why bytes at a place are no code of a value.
#[derive(Clone, Copy, Debug, Drop, PartialEq, Eq, Error)]
pub enum CodeFault {
    /// The bytes end too early: the place where the first missing byte would stand.
    #[error("bytes missing at {0}")]
    Short(usize),
    /// The place of the first byte of the first field that is out of its range.
    #[error("bad field at {0}")]
    Field(usize),
    #[error("out of memory")]
    NoMemory,
}

impl From<AllocError> for CodeFault {
    ghost from_gives = { λ _ e. e ≡ fault.NoMemory };

    fn from(_: AllocError) -> Self {
        CodeFault::NoMemory
    }
}

impl<T: Drop> From<AllocFailed<T>> for CodeFault {
    ghost from_gives = { λ _ e. e ≡ fault.NoMemory };

    fn from(_: AllocFailed<T>) -> Self {
        CodeFault::NoMemory
    }
}
