// Why a call on a journal wasn't carried out.
use ec_base::NoMemory;
use std::alloc::{AllocError, AllocFailed};
use thiserror::Error;

#[derive(Clone, Copy, Debug, Drop, PartialEq, Eq, Error)]
pub enum JournalFault {
    /// The place on the disk of an open gate whose record runs past the journal.
    #[error("bad journal at {0}")]
    Bad(u64),
    /// The bytes needed and the free ones.
    #[error("no room for {0} bytes in {1}")]
    NoRoom(u64, u64),
    #[error("disk failed")]
    DiskFailed,
    #[error("disk stopped")]
    DiskStopped,
    #[error("out of memory")]
    NoMemory,
}

impl From<AllocError> for JournalFault {
    ghost use Rattle.std.specs.Prelude.{◌≡◌};
    ghost use Rattle.ec_journal.specs.declared.fault.JournalFault.TheVariants as fault;

    ghost from_gives = { λ _ e. e ≡ fault.NoMemory };

    fn from(_: AllocError) -> Self {
        JournalFault::NoMemory
    }
}

impl<T: Drop> From<AllocFailed<T>> for JournalFault {
    ghost use Rattle.std.specs.Prelude.{◌≡◌};
    ghost use Rattle.ec_journal.specs.declared.fault.JournalFault.TheVariants as fault;

    ghost from_gives = { λ _ e. e ≡ fault.NoMemory };

    fn from(_: AllocFailed<T>) -> Self {
        JournalFault::NoMemory
    }
}

impl From<NoMemory> for JournalFault {
    ghost use Rattle.std.specs.Prelude.{◌≡◌};
    ghost use Rattle.ec_journal.specs.declared.fault.JournalFault.TheVariants as fault;

    ghost from_gives = { λ _ e. e ≡ fault.NoMemory };

    fn from(_: NoMemory) -> Self {
        JournalFault::NoMemory
    }
}
