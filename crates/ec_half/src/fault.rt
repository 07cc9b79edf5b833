// Why two disks are no mirror.
ghost use Rattle.std.specs.Prelude.{◌≡◌, ℕ, OnOk, IsErrOf};
ghost use Rattle.ec_disk.specs.declared.disk.DiskAnswer.TheVariants as said;
ghost use Rattle.ec_half.specs.declared.fault.MirrorFault.TheVariants as fault;

use ec_disk::DiskAnswer;
use thiserror::Error;

#[derive(Clone, Copy, Debug, Drop, PartialEq, Eq, Error)]
pub enum MirrorFault {
    /// The first or the second disk is no half of a mirror, and the place that shows it.
    #[error("bad mirror: disk {0} at {1}")]
    BadMirror(u8, u64),
    #[error("disk failed")]
    DiskFailed,
    #[error("disk stopped")]
    DiskStopped,
    #[error("out of memory")]
    NoMemory,
}

// The call of a disk was done, or it's why a mirror isn't opened.
pub fn done(answer: DiskAnswer) -> Result<(), MirrorFault>
    ensures ok { OnOk result (answer ≡ said.Done) }
    ensures failed { IsErrOf result fault.DiskFailed → answer ≡ said.Failed }
    ensures stopped { IsErrOf result fault.DiskStopped → answer ≡ said.Stopped }
    ensures good { (k place : ℕ) → IsErrOf result (fault.BadMirror k place) → ⊥ }
{
    match answer {
        DiskAnswer::Done => Ok(()),
        DiskAnswer::Failed => Err(MirrorFault::DiskFailed),
        DiskAnswer::Stopped => Err(MirrorFault::DiskStopped),
        DiskAnswer::NoMemory => Err(MirrorFault::NoMemory),
    }
}

/// Why disks that were good became no mirror.
pub fn unmade(answer: DiskAnswer) -> MirrorFault
    ensures good { (k place : ℕ) → result ≡ fault.BadMirror k place → ⊥ }
    ensures failed { result ≡ fault.DiskFailed → answer ≡ said.Failed }
{
    match answer {
        DiskAnswer::Failed => MirrorFault::DiskFailed,
        DiskAnswer::Stopped => MirrorFault::DiskStopped,
        DiskAnswer::Done | DiskAnswer::NoMemory => MirrorFault::NoMemory,
    }
}
