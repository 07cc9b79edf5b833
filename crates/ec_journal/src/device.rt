// Calls on a disk that a journal, and the store above it, are made of.
ghost use Rattle.std.specs.Prelude.{◌≡◌, ◌+◌, ◌≤◌, ℕ, length, IfOk, OnOk, OnErr, IfErr, IsOk, IsErrOf};
ghost use Rattle.ec_disk.specs.declared.disk.DiskAnswer.TheVariants as said;
ghost use Rattle.ec_disk.specs.Disk.{View, part};
ghost use Rattle.ec_disk.specs.Effects.{InRange, written, IsSynced, Rests, Counted, Called};
ghost use Rattle.ec_disk.specs.Runs.{Ran};
ghost use Rattle.ec_journal.specs.Ends.{DidAll, EndsBy, TurnedUpTo, answer_of};
ghost use Rattle.ec_journal.specs.declared.fault.JournalFault.TheVariants as fault;

use crate::fault::JournalFault;
use ec_disk::{Disk, DiskAnswer};
use std::alloc::{AllocError, Global};

// A page of zeros: bytes that are read over are put down by whole pieces.
static ZEROS: [u8; 4_096] = [0; 4_096];

fn done(answer: DiskAnswer) -> Result<(), JournalFault>
    ensures ok { OnOk result (answer ≡ said.Done) }
    ensures err { IfErr result (λ f. answer ≡ answer_of f) }
    ensures failed { IsErrOf result fault.DiskFailed → answer ≡ said.Failed }
    ensures stopped { IsErrOf result fault.DiskStopped → answer ≡ said.Stopped }
    ensures no_room { (need free : ℕ) → IsErrOf result (fault.NoRoom need free) → ⊥ }
    ensures no_bad { (place : ℕ) → IsErrOf result (fault.Bad place) → ⊥ }
{
    match answer {
        DiskAnswer::Done => Ok(()),
        DiskAnswer::Failed => Err(JournalFault::DiskFailed),
        DiskAnswer::Stopped => Err(JournalFault::DiskStopped),
        DiskAnswer::NoMemory => Err(JournalFault::NoMemory),
    }
}

/// Writes `piece` from `at` on, and syncs: two calls of the disk. `Bad` and `NoRoom` never come.
pub fn write_synced<D: Disk>(disk: &mut D, at: u64, piece: &[u8]) -> Result<(), JournalFault>
    ensures ran { D.tells → Ran (InRange at (length piece.now)) (D.view disk.old) (D.view disk.new) }
    ensures written { OnOk result (D.tells → (D.view disk.new).gives ≡ written at piece.now (D.view disk.old).gives) }
    ensures synced { OnOk result (D.tells → IsSynced (D.view disk.new)) }
    ensures calls { OnOk result (Called 2 (D.counts disk.old) (D.counts disk.new)) }
    ensures did { OnOk result (DidAll D.does 2 disk.old disk.new) }
    ensures turned { TurnedUpTo 2 (D.counts disk.old).armed (D.counts disk.new).armed (IsOk result) (IsErrOf result fault.DiskStopped) }
    ensures saved { OnOk result (D.tells → (D.view disk.new).synced ≡ (D.view disk.new).gives) }
    ensures kept { OnErr result (D.tells → (D.view disk.new).synced ≡ (D.view disk.old).synced) }
    // A write that stops is carried out.
    ensures stopped { IsErrOf result fault.DiskStopped → D.tells → (D.view disk.new).gives ≡ written at piece.now (D.view disk.old).gives }
    ensures ends { IfErr result (λ f. EndsBy D.does (answer_of f) 2 disk.old disk.new) }
    ensures counts { Counted (D.counts disk.old) (D.counts disk.new) (IsErrOf result fault.DiskFailed) (IsErrOf result fault.DiskStopped) }
    ensures no_room { (need free : ℕ) → IsErrOf result (fault.NoRoom need free) → ⊥ }
    ensures no_bad { (place : ℕ) → IsErrOf result (fault.Bad place) → ⊥ }
{
    done(disk.write_at(at, piece))?;
    done(disk.sync())?;
    Ok(())
}

/// Reads the `size` bytes from `at` on by one call of the disk. `Bad` and `NoRoom` never come.
pub fn read_part<D: Disk>(
    alloc: Global,
    disk: &mut D,
    at: u64,
    size: u64,
) -> Result<Vec<u8>, JournalFault>
    requires inside { D.tells → at + size ≤ length (D.view disk.old).gives }
    ensures bytes { IfOk result (λ bytes. D.tells → bytes.items ≡ part (D.view disk.old).gives at size) }
    ensures calls { OnOk result (Called 1 (D.counts disk.old) (D.counts disk.new)) }
    ensures length { IfOk result (λ bytes. length bytes.items ≡ size) }
    ensures rests { D.tells → Rests (D.view disk.old) (D.view disk.new) }
    ensures counts { Counted (D.counts disk.old) (D.counts disk.new) (IsErrOf result fault.DiskFailed) (IsErrOf result fault.DiskStopped) }
    ensures no_room { (need free : ℕ) → IsErrOf result (fault.NoRoom need free) → ⊥ }
    ensures no_bad { (place : ℕ) → IsErrOf result (fault.Bad place) → ⊥ }
{
    let mut bytes = blank(alloc, size as usize)?;
    done(disk.read_at(at, bytes.as_mut_slice()))?;
    Ok(bytes)
}

// So many bytes to read over.
fn blank(alloc: Global, size: usize) -> Result<Vec<u8>, AllocError>
    ensures { IfOk result (λ bytes. length bytes.items ≡ size) }
{
    let mut bytes = Vec::with_capacity(alloc, size)?;
    'pieces: while bytes.len() < size {
        let count = (size - bytes.len()).min(ZEROS.len());
        bytes.extend_from_slice(&ZEROS[..count])?;
    }
    Ok(bytes)
}
