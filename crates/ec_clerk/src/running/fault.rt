// The faults of steps.
ghost use Rattle.std.specs.Prelude.{◌≡◌};
ghost use Rattle.ec_clerk.specs.OfRunning.Faults.{of_clerk, of_step};
ghost use Rattle.ec_clerk.specs.declared.running.fault.StepFault.TheVariants as fault;

use ec_base::{Counter, NoMemory};
use ec_protocol::{ClerkFault, WorldFault};
use std::alloc::{AllocError, AllocFailed};

/// Why a step isn't taken.
///
/// After `DiskFailed` and `NoMemory` a world answers want of memory alone. The others change nothing.
#[derive(Clone, Copy, Debug, Drop, PartialEq, Eq)]
pub enum StepFault {
    DiskFailed,
    Spent(Counter),
    NoSuchOp,
    NoSuchMsg,
    NoMemory,
}

impl From<NoMemory> for StepFault {
    ghost from_gives = { λ _ e. e ≡ fault.NoMemory };

    fn from(_: NoMemory) -> Self {
        StepFault::NoMemory
    }
}

impl From<AllocError> for StepFault {
    ghost from_gives = { λ _ e. e ≡ fault.NoMemory };

    fn from(_: AllocError) -> Self {
        StepFault::NoMemory
    }
}

impl<T: Drop> From<AllocFailed<T>> for StepFault {
    ghost from_gives = { λ _ e. e ≡ fault.NoMemory };

    fn from(_: AllocFailed<T>) -> Self {
        StepFault::NoMemory
    }
}

impl From<ClerkFault> for StepFault {
    ghost from_gives = { λ f e. e ≡ of_clerk f };

    fn from(fault: ClerkFault) -> Self {
        match fault {
            ClerkFault::NoSuchOp => StepFault::NoSuchOp,
            ClerkFault::Spent(counter) => StepFault::Spent(counter),
            ClerkFault::NoMemory => StepFault::NoMemory,
        }
    }
}

impl StepFault {
    /// As a world tells it.
    pub fn shown(self) -> WorldFault
        ensures { result ≡ of_step self }
    {
        match self {
            StepFault::DiskFailed => WorldFault::DiskFailed,
            StepFault::Spent(counter) => WorldFault::Spent(counter),
            StepFault::NoSuchOp => WorldFault::NoSuchOp,
            StepFault::NoSuchMsg => WorldFault::NoSuchMsg,
            StepFault::NoMemory => WorldFault::NoMemory,
        }
    }
}
