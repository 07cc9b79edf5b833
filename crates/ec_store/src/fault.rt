// Why a call on a store wasn't carried out.
ghost use Rattle.std.specs.Prelude.{◌≡◌, OnOk, OnErr, IsErrOf};
ghost use Rattle.ec_disk.specs.declared.disk.DiskAnswer.TheVariants as said;
ghost use Rattle.ec_journal.specs.declared.fault.JournalFault.TheVariants as journal;
ghost use Rattle.ec_store.specs.Faults.{IsOfDisk, IsDiskFault, fault_of, refusal_of};
ghost use Rattle.ec_store.specs.declared.fault.StoreFault.TheVariants as fault;

use ec_base::NoMemory;
use ec_disk::DiskAnswer;
use ec_durable::RecordFault;
use ec_journal::JournalFault;
use std::alloc::{AllocError, AllocFailed};
use thiserror::Error;

#[derive(Clone, Copy, Debug, Drop, PartialEq, Eq, Error)]
pub enum StoreFault {
    /// The first place of the disk that is bad.
    #[error("bad disk at {0}")]
    BadDisk(u64),
    #[error("disk failed")]
    DiskFailed,
    #[error("disk stopped")]
    DiskStopped,
    /// Why the record isn't one that the state takes.
    #[error("{0}")]
    Refused(RecordFault),
    #[error("out of memory")]
    NoMemory,
}

impl From<AllocError> for StoreFault {
    ghost from_gives = { λ _ e. e ≡ fault.NoMemory };

    fn from(_: AllocError) -> Self {
        StoreFault::NoMemory
    }
}

impl<T: Drop> From<AllocFailed<T>> for StoreFault {
    ghost from_gives = { λ _ e. e ≡ fault.NoMemory };

    fn from(_: AllocFailed<T>) -> Self {
        StoreFault::NoMemory
    }
}

impl From<NoMemory> for StoreFault {
    ghost from_gives = { λ _ e. e ≡ fault.NoMemory };

    fn from(_: NoMemory) -> Self {
        StoreFault::NoMemory
    }
}

impl From<RecordFault> for StoreFault {
    ghost from_gives = { λ f e. e ≡ refusal_of f };

    fn from(fault: RecordFault) -> Self {
        match fault {
            RecordFault::NoMemory => StoreFault::NoMemory,
            fault => StoreFault::Refused(fault),
        }
    }
}

/// The same fault of a disk.
pub(crate) fn of_disk(fault: JournalFault) -> StoreFault
    requires { IsOfDisk fault }
    ensures { result ≡ fault_of fault }
{
    match fault {
        JournalFault::Bad(_) | JournalFault::NoRoom(_, _) => unreachable!(),
        JournalFault::DiskFailed => StoreFault::DiskFailed,
        JournalFault::DiskStopped => StoreFault::DiskStopped,
        JournalFault::NoMemory => StoreFault::NoMemory,
    }
}

pub(crate) fn done(answer: DiskAnswer) -> Result<(), StoreFault>
    ensures ok { OnOk result (answer ≡ said.Done) }
    ensures not_done { OnErr result (answer ≡ said.Done → ⊥) }
    ensures failed { IsErrOf result fault.DiskFailed → answer ≡ said.Failed }
    ensures stopped { IsErrOf result fault.DiskStopped → answer ≡ said.Stopped }
    ensures no_memory { IsErrOf result fault.NoMemory → answer ≡ said.NoMemory }
    ensures disk { IsDiskFault result }
{
    match answer {
        DiskAnswer::Done => Ok(()),
        DiskAnswer::Failed => Err(StoreFault::DiskFailed),
        DiskAnswer::Stopped => Err(StoreFault::DiskStopped),
        DiskAnswer::NoMemory => Err(StoreFault::NoMemory),
    }
}
