// Why a frame is not made or not read.
ghost use Rattle.std.specs.Prelude.{◌≡◌};
ghost use Rattle.ec_streams.specs.declared.frame.fault.FrameFault.TheVariants as fault;

use std::alloc::{AllocError, AllocFailed};
use thiserror::Error;

#[derive(Clone, Copy, Debug, Drop, PartialEq, Eq, Error)]
pub enum FrameFault {
    /// A length above 1,048,576.
    #[error("a frame of {0} bytes")]
    LongFrame(u32),
    #[error("out of memory")]
    NoMemory,
}

impl From<AllocError> for FrameFault {
    ghost from_gives = { λ _ e. e ≡ fault.NoMemory };

    fn from(_: AllocError) -> Self {
        FrameFault::NoMemory
    }
}

impl<T: Drop> From<AllocFailed<T>> for FrameFault {
    ghost from_gives = { λ _ e. e ≡ fault.NoMemory };

    fn from(_: AllocFailed<T>) -> Self {
        FrameFault::NoMemory
    }
}
