// Disks: what a read gives, and what a crash may leave.
ghost use Rattle.std.specs.Prelude.{◌≡◌, ◌+◌, ◌≤◌, List, ℕ, Some, None, length};
ghost use Rattle.ec_disk.specs.declared.disk.DiskAnswer.TheVariants as answer;
ghost use Rattle.ec_disk.specs.declared.disk.DiskLen.TheVariants as len;
ghost use Rattle.ec_base.specs.Outside.{one_more};
ghost use Rattle.ec_disk.specs.Calls as call;
ghost use Rattle.ec_disk.specs.Choices.{cut, Saves};
ghost use Rattle.ec_disk.specs.Disk.{View, Counts, part};
ghost use Rattle.ec_disk.specs.Effects.{written, IsSynced, Rests, InRange, Wrote, Cut, Counted, CountsDown, IsDue};

/// What a disk answers.
#[derive(Clone, Copy, Debug, Drop, PartialEq, Eq)]
pub enum DiskAnswer {
    Done,
    /// The device failed.
    Failed,
    /// The disk is armed and stopped here.
    Stopped,
    NoMemory,
}

/// What a disk answers when asked for its length in bytes.
#[derive(Clone, Copy, Debug, Drop, PartialEq, Eq)]
pub enum DiskLen {
    Len(u64),
    Failed,
    Stopped,
}

/// What a power cut leaves of the writes since the last sync.
#[derive(Clone, Copy, Debug, Drop, PartialEq, Eq)]
pub enum Choice {
    /// None of them.
    Old,
    /// All of them.
    New,
    /// Their bytes at even places.
    Torn,
}

/// A row of bytes that outlives a crash, as far as it was synced.
///
/// A write that answered `Failed`, `Stopped` or `NoMemory` counts among those since the last sync too: a crash may leave any bytes in its
/// range. A disk may be stricter, as `MemDisk` is.
pub trait Disk {
    /// Whether disks of this type tell their content.
    ghost tells: { Type 0 };

    /// The content at this moment, where told.
    ghost view: { Self → View };

    ghost counts: { Self → Counts };

    /// What each call makes of a disk, in all that its type tells. A lent disk does what the same call does on the disk itself.
    ghost does: { Self → call.Call → Self → Type 0 };

    /// Fills `into` with the bytes from `at` on.
    fn read_at(&mut self, at: u64, into: &mut [u8]) -> DiskAnswer
        requires inside { tells → at + length into.old ≤ length (view self.old).gives }
        ensures does { does self.old (call.Read at into.old result into.new) self.new }
        ensures bytes { tells → result ≡ answer.Done → into.new ≡ part (view self.old).gives at (length into.old) }
        ensures rests { tells → Rests (view self.old) (view self.new) }
        ensures kept { tells → (view self.new).synced ≡ (view self.old).synced }
        ensures counts { Counted (counts self.old) (counts self.new) (result ≡ answer.Failed) (result ≡ answer.Stopped) }
        ensures armed { CountsDown (counts self.old).armed (counts self.new).armed (result ≡ answer.Done) (result ≡ answer.Stopped) }
        ensures due { IsDue (counts self.old).armed → result ≡ answer.Stopped }
        ensures call { (counts self.new).calls ≡ one_more (counts self.old).calls };

    /// Writes `piece` from `at` on, also where it stops. A gap past the end reads as zeros. Until a sync a crash may leave any bytes in
    /// the range.
    fn write_at(&mut self, at: u64, piece: &[u8]) -> DiskAnswer
        ensures does { does self.old (call.Write at piece.now result) self.new }
        ensures written { tells → result ≡ answer.Done → (view self.new).gives ≡ written at piece.now (view self.old).gives }
        ensures stopped { tells → result ≡ answer.Stopped → (view self.new).gives ≡ written at piece.now (view self.old).gives }
        ensures wrote { tells → Wrote (InRange at (length piece.now)) (view self.old) (view self.new) }
        ensures kept { tells → (view self.new).synced ≡ (view self.old).synced }
        ensures counts { Counted (counts self.old) (counts self.new) (result ≡ answer.Failed) (result ≡ answer.Stopped) }
        ensures armed { CountsDown (counts self.old).armed (counts self.new).armed (result ≡ answer.Done) (result ≡ answer.Stopped) }
        ensures call { (counts self.new).calls ≡ one_more (counts self.old).calls };

    /// Brings what was written to the device: after it a crash leaves what a read gives.
    fn sync(&mut self) -> DiskAnswer
        ensures does { does self.old (call.Sync result) self.new }
        ensures synced { tells → result ≡ answer.Done → IsSynced (view self.new) }
        ensures rests { tells → Rests (view self.old) (view self.new) }
        ensures saved { tells → Saves result (view self.old) (view self.new) }
        ensures counts { Counted (counts self.old) (counts self.new) (result ≡ answer.Failed) (result ≡ answer.Stopped) }
        ensures armed { CountsDown (counts self.old).armed (counts self.new).armed (result ≡ answer.Done) (result ≡ answer.Stopped) }
        ensures due { IsDue (counts self.old).armed → result ≡ answer.Stopped }
        ensures call { (counts self.new).calls ≡ one_more (counts self.old).calls };

    /// An armed disk doesn't count this call, but answers it no more once it has stopped.
    fn len(&mut self) -> DiskLen
        ensures does { does self.old (call.Len result) self.new }
        ensures len { tells → (n : ℕ) → result ≡ len.Len n → n ≡ length (view self.old).gives }
        ensures rests { tells → Rests (view self.old) (view self.new) }
        ensures kept { tells → (view self.new).synced ≡ (view self.old).synced }
        ensures counts { Counted (counts self.old) (counts self.new) (result ≡ len.Failed) (result ≡ len.Stopped) }
        ensures armed { (counts self.new).armed ≡ (counts self.old).armed }
        ensures stopped { result ≡ len.Stopped → (counts self.old).armed ≡ Some 0 }
        ensures answers { (n : ℕ) → result ≡ len.Len n → (counts self.old).armed ≡ Some 0 → ⊥ }
        ensures call { (counts self.new).calls ≡ one_more (counts self.old).calls };

    /// What a read gives is one of the images that a crash may leave.
    ghost given: { tells → (disk : Self) → (view disk).may_leave (view disk).gives };

    /// What a power cut with the choice `Old` leaves is one of them too.
    ghost given_synced: { tells → (disk : Self) → (view disk).may_leave (view disk).synced };

    /// This moment is one of those since an earlier one.
    ghost counts_now: { tells → (disk : Self) (since : ℕ) (image : List ℕ) → since ≤ (view disk).moment → (view disk).may_leave image → (view disk).left_since since image };

    /// Since this moment there is no other.
    ghost only_now: { tells → (disk : Self) (image : List ℕ) → (view disk).left_since (view disk).moment image → (view disk).may_leave image };
}

/// A disk on which a crash can be tried out.
pub trait CrashDisk: Disk {
    /// What each trial makes of a disk, in all that its type tells. A lent disk does what the same trial does on the disk itself.
    ghost tries: { Self → call.Trial → Self → Type 0 };

    /// Of the reads, writes and syncs from now on, number `calls` (from 1) answers `Stopped`, and so does each later call.
    fn arm(&mut self, calls: u64)
        ensures tries { tries self.old (call.Arm calls) self.new }
        ensures rests { Self.tells → Rests (Self.view self.old) (Self.view self.new) }
        ensures kept { Self.tells → (Self.view self.new).synced ≡ (Self.view self.old).synced }
        ensures armed { Self.counts self.new ≡ record (Self.counts self.old) { armed = Some calls } };

    /// Ends an arm or a stop.
    fn disarm(&mut self)
        ensures tries { tries self.old call.Disarm self.new }
        ensures rests { Self.tells → Rests (Self.view self.old) (Self.view self.new) }
        ensures kept { Self.tells → (Self.view self.new).synced ≡ (Self.view self.old).synced }
        ensures disarmed { Self.counts self.new ≡ record (Self.counts self.old) { armed = None } };

    /// Leaves what the choice says, which is one of the images that a crash may leave, with nothing unsynced, and disarms.
    fn power_cut(&mut self, choice: Choice) -> DiskAnswer
        ensures tries { tries self.old (call.PowerCut choice result) self.new }
        ensures cut { Self.tells → Cut (Self.view self.old) (Self.view self.new) }
        ensures leaves { Self.tells → result ≡ answer.Done → (Self.view self.new).gives ≡ cut choice (Self.view self.old).gives (Self.view self.old).synced }
        ensures synced { Self.tells → result ≡ answer.Done → IsSynced (Self.view self.new) }
        ensures counts { Counted (Self.counts self.old) (Self.counts self.new) (result ≡ answer.Failed) (result ≡ answer.Stopped) }
        ensures call { (Self.counts self.new).calls ≡ (Self.counts self.old).calls }
        ensures never_stops { result ≡ answer.Stopped → ⊥ }
        ensures disarmed { result ≡ answer.Done → (Self.counts self.new).armed ≡ None };
}
