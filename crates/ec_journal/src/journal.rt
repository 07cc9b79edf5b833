// A journal: it reads its records back, and adds one behind them.
ghost use Rattle.std.specs.Prelude.{◌≡◌, ◌+◌, ◌^◌, ◌<◌, ℕ, length, OnOk, OnErr, IfErr, IsOk, IsErrOf};
ghost use Rattle.ec_disk.specs.Effects.{InRange, written, IsSynced, Counted, Called};
ghost use Rattle.ec_disk.specs.Runs.{Ran};
ghost use Rattle.ec_journal.specs.Ends.{DidAll, EndsBy, TurnedUpTo, answer_of};
ghost use Rattle.ec_journal.specs.RecordBytes.{staged};
ghost use Rattle.ec_journal.specs.declared.fault.JournalFault.TheVariants as fault;

use crate::device::write_synced;
use crate::fault::JournalFault;
use crate::read::{AROUND_BYTES, HEAD_BYTES, OPEN, read_records};
use crate::staged::Staged;
use ec_base::List;
use ec_disk::Disk;
use std::alloc::Global;

/// `append` takes a body of at most this many bytes.
pub const MAX_RECORD_BYTES: usize = 524_288;

/// A row of records in a range of a disk.
///
/// A closed gate stands behind the last one. It's on the disk before the gate in front of that record opens.
#[derive(Drop)]
pub struct Journal {
    at: u64,
    size: u64,
    end: u64,
    ghost room: { end < size },
    ghost inside: { at + size < 2 ^ 64 },
}

impl Journal {
    ghost use Rattle.std.specs.Prelude.{◌≡◌, ◌+◌, ◌^◌, ◌<◌, ◌≤◌, ℕ, Some, length, IfOk, OnOk, OnErr, IsOk, IsErrOf, MatchBool, MatchResult};
    ghost use Rattle.ec_disk.specs.Effects.{IsSynced, Counted, Called, Rests};
    ghost use Rattle.ec_disk.specs.Runs.{Ran};
    ghost use Rattle.ec_disk.specs.declared.disk.DiskAnswer.TheVariants as said;
    ghost use Rattle.ec_journal.specs.Ends.{DidAll, EndsBy, LacksMemory, TurnedUpTo};
    ghost use Rattle.ec_journal.specs.Records.{around_bytes, records, HasBodies};
    ghost use Rattle.ec_journal.specs.RecordBytes.{head_bytes, max_record_bytes};
    ghost use Rattle.ec_journal.specs.Journal.{place_of, size_of, end_of, free_of, need_of, FromGate, Adds, LeavesEither, LeavesOld, StopsIn, IsBadJournal};
    ghost use Rattle.ec_journal.specs.declared.fault.JournalFault.TheVariants as fault;

    /// The journal of `size` bytes from `at` on, whose closed gate stands at `end` in it: 0 where it has no record.
    pub fn new(at: u64, size: u64, end: u64) -> Journal
        requires room { end < size }
        requires place { at + size < 2 ^ 64 }
        ensures { (place_of result ≡ at) × (size_of result ≡ size) × (end_of result ≡ end) }
    {
        Journal { at, size, end }
    }

    /// Reads the bodies of the records whose gates are open, from the front up to the first closed gate.
    ///
    /// `Bad` shows the place of an open gate whose record runs past the journal.
    pub fn open<D: Disk>(
        alloc: Global,
        disk: &mut D,
        at: u64,
        size: u64,
    ) -> Result<(Journal, Vec<List<u8>>), JournalFault>
        requires size { 1 ≤ size }
        requires place { at + size < 2 ^ 64 }
        requires inside { D.tells → at + size ≤ length (D.view disk.old).gives }
        ensures bodies { IfOk result (λ opened. D.tells → HasBodies (D.view disk.old).gives at size opened.1.items) }
        ensures journal { IfOk result (λ opened. (place_of opened.0 ≡ at) × (size_of opened.0 ≡ size) × (D.tells → end_of opened.0 ≡ length (records opened.1.items))) }
        ensures bad { (place : ℕ) → IsErrOf result (fault.Bad place) → D.tells → IsBadJournal (D.view disk.old).gives at size place }
        ensures calls { OnOk result (Called 1 (D.counts disk.old) (D.counts disk.new)) }
        ensures not_bad { OnOk result (D.tells → (place : ℕ) → IsBadJournal (D.view disk.old).gives at size place → ⊥) }
        ensures rests { D.tells → Rests (D.view disk.old) (D.view disk.new) }
        ensures counts { Counted (D.counts disk.old) (D.counts disk.new) (IsErrOf result fault.DiskFailed) (IsErrOf result fault.DiskStopped) }
        ensures no_room { (need free : ℕ) → IsErrOf result (fault.NoRoom need free) → ⊥ }
    {
        let found = read_records(alloc, disk, at, size)?;
        if !found.is_whole {
            return Err(JournalFault::Bad(at + found.end));
        }
        let journal = Journal {
            at,
            size,
            end: found.end,
        };
        Ok((journal, found.bodies.into_vec()))
    }

    /// Whether there is room for a record with this body.
    pub fn has_room(&self, body: &[u8]) -> bool
        requires { length body.now ≤ max_record_bytes }
        ensures { MatchBool result (need_of body.now ≤ free_of self.now) (free_of self.now < need_of body.now) }
    {
        (body.len() + AROUND_BYTES) as u64 <= self.size - self.end
    }

    // A record of so many bytes of body fits behind the others.
    fn find_room(&self, len: usize) -> Result<(), JournalFault>
        requires { len ≤ max_record_bytes }
        ensures { MatchResult result (λ _. len + around_bytes ≤ free_of self.now) (λ f. (f ≡ fault.NoRoom (len + around_bytes) (free_of self.now)) × (free_of self.now < len + around_bytes)) }
    {
        let need = (len + AROUND_BYTES) as u64;
        let free = self.size - self.end;
        if need > free {
            Err(JournalFault::NoRoom(need, free))
        } else {
            Ok(())
        }
    }

    /// Adds a body, by four calls of the disk. At `Ok` it is there after each crash.
    ///
    /// At `NoRoom`, which shows the bytes needed and those free, there was no call, and none where there was no memory, which is all taken
    /// before the first one. After a fault of the disk, or want of its own memory, the record may be there or not: open again.
    pub fn append<D: Disk>(
        &mut self,
        alloc: Global,
        disk: &mut D,
        body: &[u8],
    ) -> Result<(), JournalFault>
        requires { length body.now ≤ max_record_bytes }
        ensures ok { OnOk result (D.tells → Adds (D.view disk.old) (D.view disk.new) self.old self.new body.now) }
        ensures synced { OnOk result (D.tells → IsSynced (D.view disk.new)) }
        ensures any_moment { D.tells → LeavesEither (D.view disk.old) (D.view disk.new) self.old body.now }
        ensures calls { OnOk result (Called 4 (D.counts disk.old) (D.counts disk.new)) }
        ensures did { OnOk result (DidAll D.does 4 disk.old disk.new) }
        // Behind any other fault the disk answered so in one of four calls, the last one made.
        ensures failed { IsErrOf result fault.DiskFailed → EndsBy D.does said.Failed 4 disk.old disk.new }
        ensures stopped { IsErrOf result fault.DiskStopped → EndsBy D.does said.Stopped 4 disk.old disk.new }
        ensures no_memory { IsErrOf result fault.NoMemory → LacksMemory D.does 4 disk.old disk.new }
        // How many reads, writes and syncs an armed disk counted: four at `Ok`, and where it stopped, up to the one that stops.
        ensures turned { TurnedUpTo 4 (D.counts disk.old).armed (D.counts disk.new).armed (IsOk result) (IsErrOf result fault.DiskStopped) }
        // What was synced has the bodies from before.
        ensures old { OnErr result (D.tells → LeavesOld (D.view disk.old) (D.view disk.new) self.old) }
        ensures halves { IsErrOf result fault.DiskStopped → D.tells → (turn : ℕ) → (D.counts disk.old).armed ≡ Some turn → StopsIn turn (D.view disk.old) (D.view disk.new) self.old body.now }
        ensures ran { D.tells → Ran (FromGate self.old) (D.view disk.old) (D.view disk.new) }
        ensures full { free_of self.old < need_of body.now → IsErrOf result (fault.NoRoom (need_of body.now) (free_of self.old)) }
        ensures no_room { (need free : ℕ) → IsErrOf result (fault.NoRoom need free) → (need ≡ need_of body.now) × (free ≡ free_of self.old) × (free < need) × (disk.new ≡ disk.old) }
        ensures no_bad { (place : ℕ) → IsErrOf result (fault.Bad place) → ⊥ }
        ensures counts { Counted (D.counts disk.old) (D.counts disk.new) (IsErrOf result fault.DiskFailed) (IsErrOf result fault.DiskStopped) }
        ensures place { (place_of self.new ≡ place_of self.old) × (size_of self.new ≡ size_of self.old) }
        ensures end { OnOk result (end_of self.new ≡ end_of self.old + length body.now + head_bytes) }
        ensures err { OnErr result (self.new ≡ self.old) }
    {
        self.find_room(body.len())?;
        let entry = Staged::of(alloc, body)?;
        self.append_staged(disk, &entry)
    }

    /// Adds a record that is ready, as `append` does, and takes no memory for it.
    pub fn append_staged<D: Disk>(
        &mut self,
        disk: &mut D,
        entry: &Staged,
    ) -> Result<(), JournalFault>
        ensures ok { OnOk result (D.tells → Adds (D.view disk.old) (D.view disk.new) self.old self.new entry.now) }
        ensures synced { OnOk result (D.tells → IsSynced (D.view disk.new)) }
        ensures any_moment { D.tells → LeavesEither (D.view disk.old) (D.view disk.new) self.old entry.now }
        ensures calls { OnOk result (Called 4 (D.counts disk.old) (D.counts disk.new)) }
        ensures did { OnOk result (DidAll D.does 4 disk.old disk.new) }
        // Behind any other fault the disk answered so in one of four calls, the last one made.
        ensures failed { IsErrOf result fault.DiskFailed → EndsBy D.does said.Failed 4 disk.old disk.new }
        ensures stopped { IsErrOf result fault.DiskStopped → EndsBy D.does said.Stopped 4 disk.old disk.new }
        ensures no_memory { IsErrOf result fault.NoMemory → EndsBy D.does said.NoMemory 4 disk.old disk.new }
        // How many reads, writes and syncs an armed disk counted: four at `Ok`, and where it stopped, up to the one that stops.
        ensures turned { TurnedUpTo 4 (D.counts disk.old).armed (D.counts disk.new).armed (IsOk result) (IsErrOf result fault.DiskStopped) }
        // What was synced has the bodies from before.
        ensures old { OnErr result (D.tells → LeavesOld (D.view disk.old) (D.view disk.new) self.old) }
        ensures halves { IsErrOf result fault.DiskStopped → D.tells → (turn : ℕ) → (D.counts disk.old).armed ≡ Some turn → StopsIn turn (D.view disk.old) (D.view disk.new) self.old entry.now }
        ensures ran { D.tells → Ran (FromGate self.old) (D.view disk.old) (D.view disk.new) }
        ensures full { free_of self.old < need_of entry.now → IsErrOf result (fault.NoRoom (need_of entry.now) (free_of self.old)) }
        ensures no_room { (need free : ℕ) → IsErrOf result (fault.NoRoom need free) → (need ≡ need_of entry.now) × (free ≡ free_of self.old) × (free < need) × (disk.new ≡ disk.old) }
        ensures no_bad { (place : ℕ) → IsErrOf result (fault.Bad place) → ⊥ }
        ensures counts { Counted (D.counts disk.old) (D.counts disk.new) (IsErrOf result fault.DiskFailed) (IsErrOf result fault.DiskStopped) }
        ensures place { (place_of self.new ≡ place_of self.old) × (size_of self.new ≡ size_of self.old) }
        ensures end { OnOk result (end_of self.new ≡ end_of self.old + length entry.now + head_bytes) }
        ensures err { OnErr result (self.new ≡ self.old) }
    {
        let size = entry.size();
        self.find_room(size)?;
        let gate = self.at + self.end;
        write_staged(disk, gate + 1, entry)?;
        write_synced(disk, gate, &[OPEN])?;
        self.end += (size + HEAD_BYTES) as u64;
        Ok(())
    }
}

// Writes a length, a body and the closed next gate from `at` on, and syncs.
fn write_staged<D: Disk>(disk: &mut D, at: u64, entry: &Staged) -> Result<(), JournalFault>
    ensures ran { D.tells → Ran (InRange at (length (staged entry.now))) (D.view disk.old) (D.view disk.new) }
    ensures written { OnOk result (D.tells → (D.view disk.new).gives ≡ written at (staged entry.now) (D.view disk.old).gives) }
    ensures synced { OnOk result (D.tells → IsSynced (D.view disk.new)) }
    ensures calls { OnOk result (Called 2 (D.counts disk.old) (D.counts disk.new)) }
    ensures did { OnOk result (DidAll D.does 2 disk.old disk.new) }
    ensures ends { IfErr result (λ f. EndsBy D.does (answer_of f) 2 disk.old disk.new) }
    ensures turned { TurnedUpTo 2 (D.counts disk.old).armed (D.counts disk.new).armed (IsOk result) (IsErrOf result fault.DiskStopped) }
    ensures saved { OnOk result (D.tells → (D.view disk.new).synced ≡ (D.view disk.new).gives) }
    ensures kept { OnErr result (D.tells → (D.view disk.new).synced ≡ (D.view disk.old).synced) }
    ensures counts { Counted (D.counts disk.old) (D.counts disk.new) (IsErrOf result fault.DiskFailed) (IsErrOf result fault.DiskStopped) }
    ensures no_room { (need free : ℕ) → IsErrOf result (fault.NoRoom need free) → ⊥ }
    ensures no_bad { (place : ℕ) → IsErrOf result (fault.Bad place) → ⊥ }
{
    write_synced(disk, at, entry.piece())
}
