// What reads, writes, syncs and questions for the length do with the disks of a mirror.
ghost use Rattle.std.specs.Prelude.{◌≡◌, ℕ, None, Some, length, true, false};
ghost use Rattle.ec_base.specs.Outside.{one_more};
ghost use Rattle.ec_disk.specs.Disk.{part};
ghost use Rattle.ec_disk.specs.Effects.{Counted, InRange, IsDue, written};
ghost use Rattle.ec_disk.specs.declared.disk.DiskAnswer.TheVariants as said;
ghost use Rattle.ec_disk.specs.declared.disk.DiskLen.TheVariants as len;
ghost use Rattle.ec_half.specs.Contents.{Rested, Loosened};
ghost use Rattle.ec_mirror.specs.declared.kept.Kept.TheVariants as left;
ghost use Rattle.ec_mirror.specs.Shown.{shown_of, IsWholeAt, IsSavedAt, Syncs, SameDisks, StaysSound};
ghost use Rattle.ec_mirror.specs.Tally.{counts_of, told, told_alone, TallyTurned};

use crate::kept::Kept;
use crate::parts::Parts;
use crate::tally::Turn;
use ec_disk::{CrashDisk, DiskAnswer, DiskLen};

impl<'a, A: CrashDisk, B: CrashDisk> Parts<'a, A, B> {
    pub(crate) fn read_at(&mut self, at: u64, into: &mut [u8]) -> DiskAnswer
        ensures turned { TallyTurned result self.old.tally self.new.tally }
        ensures due { IsDue self.old.tally.armed → result ≡ said.Stopped }
        ensures bytes { A.tells × B.tells → result ≡ said.Done → into.new ≡ part (shown_of A.view B.view self.old.present).gives at (length into.old) }
        ensures rests { A.tells × B.tells → Rested (shown_of A.view B.view self.old.present) (shown_of A.view B.view self.new.present) }
        ensures goes { StaysSound result self.old.present.pair self.new.present.pair self.new.is_sound }
    {
        match self.tally.next() {
            Turn::Goes => self.read(at, into),
            Turn::Stops => self.stop(),
        }
    }

    pub(crate) fn write_at(&mut self, at: u64, piece: &[u8]) -> DiskAnswer
        ensures turned { TallyTurned result self.old.tally self.new.tally }
        ensures written { A.tells × B.tells → result ≡ said.Done → (shown_of A.view B.view self.new.present).gives ≡ written at piece.now (shown_of A.view B.view self.old.present).gives }
        ensures stopped { A.tells × B.tells → result ≡ said.Stopped → (shown_of A.view B.view self.new.present).gives ≡ written at piece.now (shown_of A.view B.view self.old.present).gives }
        ensures loosened { A.tells × B.tells → Loosened (InRange at (length piece.now)) (shown_of A.view B.view self.old.present) (shown_of A.view B.view self.new.present) }
        ensures goes { StaysSound result self.old.present.pair self.new.present.pair self.new.is_sound }
    {
        match self.tally.next() {
            Turn::Goes => self.write(at, piece),
            Turn::Stops => self.stop_write(at, piece),
        }
    }

    pub(crate) fn sync(&mut self) -> DiskAnswer
        ensures turned { TallyTurned result self.old.tally self.new.tally }
        ensures due { IsDue self.old.tally.armed → result ≡ said.Stopped }
        ensures syncs { A.tells × B.tells → Syncs result (shown_of A.view B.view self.old.present) (shown_of A.view B.view self.new.present) }
        ensures goes { StaysSound result self.old.present.pair self.new.present.pair self.new.is_sound }
    {
        match self.tally.next() {
            Turn::Goes => self.sync_kept(),
            Turn::Stops => self.stop(),
        }
    }

    /// The content's length.
    pub(crate) fn len(&mut self) -> DiskLen
        ensures counts { Counted (counts_of self.old.tally) (counts_of self.new.tally) (result ≡ len.Failed) (result ≡ len.Stopped) }
        ensures armed { self.new.tally.armed ≡ self.old.tally.armed }
        ensures stopped { result ≡ len.Stopped → self.old.tally.armed ≡ Some 0 }
        ensures answers { (n : ℕ) → result ≡ len.Len n → self.old.tally.armed ≡ Some 0 → ⊥ }
        ensures call { self.new.tally.calls ≡ one_more self.old.tally.calls }
        ensures alone { (result ≡ len.Failed → ⊥) → self.new.tally.failed_alone ≡ self.old.tally.failed_alone }
        ensures len { A.tells × B.tells → (n : ℕ) → result ≡ len.Len n → n ≡ length (shown_of A.view B.view self.old.present).gives }
        ensures rests { A.tells × B.tells → Rested (shown_of A.view B.view self.old.present) (shown_of A.view B.view self.new.present) }
        ensures goes { SameDisks self.old.present.pair self.new.present.pair × (self.new.is_sound ≡ self.old.is_sound) }
    {
        if self.tally.next_len() {
            return DiskLen::Stopped;
        }
        if self.is_dead {
            return DiskLen::Len(self.len);
        }
        self.ask_len()
    }

    // The length of the first disk that isn't dropped.
    fn ask_len(&mut self) -> DiskLen
        requires lives { self.old.is_dead ≡ false }
        ensures never_stops { result ≡ len.Stopped → ⊥ }
        ensures tally { result ≡ len.Failed → self.new.tally ≡ told_alone self.new.tally.failed_alone self.old.tally }
        ensures same { (result ≡ len.Failed → ⊥) → self.new.tally ≡ self.old.tally }
        ensures len { A.tells × B.tells → (n : ℕ) → result ≡ len.Len n → n ≡ length (shown_of A.view B.view self.old.present).gives }
        ensures rests { A.tells × B.tells → Rested (shown_of A.view B.view self.old.present) (shown_of A.view B.view self.new.present) }
        ensures goes { SameDisks self.old.present.pair self.new.present.pair × (self.new.is_sound ≡ self.old.is_sound) }
    {
        match self.present.pair.kept {
            Kept::Both | Kept::Leaving | Kept::First => self.ask_first(),
            Kept::Second => self.ask_second(),
        }
    }

    fn ask_first(&mut self) -> DiskLen
        requires lives { self.old.is_dead ≡ false }
        requires kept { self.old.present.pair.kept ≡ left.Second → ⊥ }
        ensures never_stops { result ≡ len.Stopped → ⊥ }
        ensures tally { result ≡ len.Failed → self.new.tally ≡ told_alone self.new.tally.failed_alone self.old.tally }
        ensures same { (result ≡ len.Failed → ⊥) → self.new.tally ≡ self.old.tally }
        ensures len { A.tells × B.tells → (n : ℕ) → result ≡ len.Len n → n ≡ length (shown_of A.view B.view self.old.present).gives }
        ensures rests { A.tells × B.tells → Rested (shown_of A.view B.view self.old.present) (shown_of A.view B.view self.new.present) }
        ensures goes { SameDisks self.old.present.pair self.new.present.pair × (self.new.is_sound ≡ self.old.is_sound) }
    {
        let len = self.present.pair.first.len();
        if len == DiskLen::Failed {
            self.fault();
            return DiskLen::Failed;
        }
        len
    }

    fn ask_second(&mut self) -> DiskLen
        requires lives { self.old.is_dead ≡ false }
        requires kept { self.old.present.pair.kept ≡ left.Second }
        ensures never_stops { result ≡ len.Stopped → ⊥ }
        ensures tally { result ≡ len.Failed → self.new.tally ≡ told_alone self.new.tally.failed_alone self.old.tally }
        ensures same { (result ≡ len.Failed → ⊥) → self.new.tally ≡ self.old.tally }
        ensures len { A.tells × B.tells → (n : ℕ) → result ≡ len.Len n → n ≡ length (shown_of A.view B.view self.old.present).gives }
        ensures rests { A.tells × B.tells → Rested (shown_of A.view B.view self.old.present) (shown_of A.view B.view self.new.present) }
        ensures goes { SameDisks self.old.present.pair self.new.present.pair × (self.new.is_sound ≡ self.old.is_sound) }
    {
        let len = self.present.pair.second.len();
        if len == DiskLen::Failed {
            self.fault();
            return DiskLen::Failed;
        }
        len
    }

    fn read(&mut self, at: u64, into: &mut [u8]) -> DiskAnswer
        ensures never_stops { result ≡ said.Stopped → ⊥ }
        ensures tally { self.new.tally ≡ told result self.old.tally }
        ensures bytes { A.tells × B.tells → result ≡ said.Done → into.new ≡ part (shown_of A.view B.view self.old.present).gives at (length into.old) }
        ensures rests { A.tells × B.tells → Rested (shown_of A.view B.view self.old.present) (shown_of A.view B.view self.new.present) }
        ensures goes { StaysSound result self.old.present.pair self.new.present.pair self.new.is_sound }
    {
        if !self.is_sound {
            return DiskAnswer::NoMemory;
        }
        match self.present.pair.kept {
            Kept::Both => self.read_either(at, into),
            Kept::Leaving => self.refuse(),
            Kept::First => self.read_first(at, into),
            Kept::Second => self.read_second(at, into),
        }
    }

    // Reads the first disk, or the second one where the first one fails.
    fn read_either(&mut self, at: u64, into: &mut [u8]) -> DiskAnswer
        requires whole { self.old.present.pair.kept ≡ left.Both }
        requires sound { self.old.is_sound ≡ true }
        ensures never_stops { result ≡ said.Stopped → ⊥ }
        ensures tally { self.new.tally ≡ told result self.old.tally }
        ensures bytes { A.tells × B.tells → result ≡ said.Done → into.new ≡ part (shown_of A.view B.view self.old.present).gives at (length into.old) }
        ensures rests { A.tells × B.tells → Rested (shown_of A.view B.view self.old.present) (shown_of A.view B.view self.new.present) }
        ensures goes { StaysSound result self.old.present.pair self.new.present.pair self.new.is_sound }
    {
        match self.present.pair.first.read(at, into) {
            DiskAnswer::Failed => {}
            answer => return self.settle(answer),
        }
        match self.drop_first() {
            DiskAnswer::Done => self.read_second(at, into),
            fault => fault,
        }
    }

    fn read_first(&mut self, at: u64, into: &mut [u8]) -> DiskAnswer
        requires kept { self.old.present.pair.kept ≡ left.First }
        requires sound { self.old.is_sound ≡ true }
        ensures never_stops { result ≡ said.Stopped → ⊥ }
        ensures tally { self.new.tally ≡ told result self.old.tally }
        ensures bytes { A.tells × B.tells → result ≡ said.Done → into.new ≡ part (shown_of A.view B.view self.old.present).gives at (length into.old) }
        ensures rests { A.tells × B.tells → Rested (shown_of A.view B.view self.old.present) (shown_of A.view B.view self.new.present) }
        ensures goes { StaysSound result self.old.present.pair self.new.present.pair self.new.is_sound }
    {
        let answer = self.present.pair.first.read(at, into);
        self.settle(answer)
    }

    fn read_second(&mut self, at: u64, into: &mut [u8]) -> DiskAnswer
        requires kept { self.old.present.pair.kept ≡ left.Second }
        requires sound { self.old.is_sound ≡ true }
        ensures never_stops { result ≡ said.Stopped → ⊥ }
        ensures tally { self.new.tally ≡ told result self.old.tally }
        ensures bytes { A.tells × B.tells → result ≡ said.Done → into.new ≡ part (shown_of A.view B.view self.old.present).gives at (length into.old) }
        ensures rests { A.tells × B.tells → Rested (shown_of A.view B.view self.old.present) (shown_of A.view B.view self.new.present) }
        ensures goes { StaysSound result self.old.present.pair self.new.present.pair self.new.is_sound }
    {
        let answer = self.present.pair.second.read(at, into);
        self.settle(answer)
    }

    fn write(&mut self, at: u64, piece: &[u8]) -> DiskAnswer
        ensures never_stops { result ≡ said.Stopped → ⊥ }
        ensures tally { self.new.tally ≡ told result self.old.tally }
        ensures written { A.tells × B.tells → result ≡ said.Done → (shown_of A.view B.view self.new.present).gives ≡ written at piece.now (shown_of A.view B.view self.old.present).gives }
        ensures loosened { A.tells × B.tells → Loosened (InRange at (length piece.now)) (shown_of A.view B.view self.old.present) (shown_of A.view B.view self.new.present) }
        ensures goes { StaysSound result self.old.present.pair self.new.present.pair self.new.is_sound }
    {
        if !self.is_sound {
            return DiskAnswer::NoMemory;
        }
        match self.present.pair.kept {
            Kept::Both => self.write_both(at, piece),
            Kept::Leaving => self.refuse(),
            Kept::First => self.write_first(at, piece),
            Kept::Second => self.write_second(at, piece),
        }
    }

    fn write_both(&mut self, at: u64, piece: &[u8]) -> DiskAnswer
        requires whole { self.old.present.pair.kept ≡ left.Both }
        requires lives { self.old.is_dead ≡ false }
        requires known { IsWholeAt A.view B.view (A.tells × B.tells) self.old.is_dirty self.old.present }
        ensures never_stops { result ≡ said.Stopped → ⊥ }
        ensures tally { self.new.tally ≡ told result self.old.tally }
        ensures written { A.tells × B.tells → result ≡ said.Done → (shown_of A.view B.view self.new.present).gives ≡ written at piece.now (shown_of A.view B.view self.old.present).gives }
        ensures loosened { A.tells × B.tells → Loosened (InRange at (length piece.now)) (shown_of A.view B.view self.old.present) (shown_of A.view B.view self.new.present) }
        ensures goes { StaysSound result self.old.present.pair self.new.present.pair self.new.is_sound }
    {
        self.is_sound = false;
        match self.present.pair.first.write(at, piece) {
            DiskAnswer::Done => {}
            DiskAnswer::Failed => {
                return match self.drop_first() {
                    DiskAnswer::Done => self.write_second(at, piece),
                    fault => fault,
                };
            }
            fault => return self.settle(fault),
        }
        self.is_dirty = true;
        match self.present.pair.second.write(at, piece) {
            DiskAnswer::Failed => self.drop_second(),
            answer => self.wrote(answer),
        }
    }

    fn write_first(&mut self, at: u64, piece: &[u8]) -> DiskAnswer
        requires kept { self.old.present.pair.kept ≡ left.First }
        requires lives { self.old.is_dead ≡ false }
        requires known { self.old.present.pair.first.len ≡ None → ⊥ }
        ensures never_stops { result ≡ said.Stopped → ⊥ }
        ensures tally { self.new.tally ≡ told result self.old.tally }
        ensures written { A.tells × B.tells → result ≡ said.Done → (shown_of A.view B.view self.new.present).gives ≡ written at piece.now (shown_of A.view B.view self.old.present).gives }
        ensures loosened { A.tells × B.tells → Loosened (InRange at (length piece.now)) (shown_of A.view B.view self.old.present) (shown_of A.view B.view self.new.present) }
        ensures goes { StaysSound result self.old.present.pair self.new.present.pair self.new.is_sound }
    {
        self.is_sound = false;
        let answer = self.present.pair.first.write(at, piece);
        self.wrote(answer)
    }

    fn write_second(&mut self, at: u64, piece: &[u8]) -> DiskAnswer
        requires kept { self.old.present.pair.kept ≡ left.Second }
        requires lives { self.old.is_dead ≡ false }
        requires known { self.old.present.pair.second.len ≡ None → ⊥ }
        ensures never_stops { result ≡ said.Stopped → ⊥ }
        ensures tally { self.new.tally ≡ told result self.old.tally }
        ensures written { A.tells × B.tells → result ≡ said.Done → (shown_of A.view B.view self.new.present).gives ≡ written at piece.now (shown_of A.view B.view self.old.present).gives }
        ensures loosened { A.tells × B.tells → Loosened (InRange at (length piece.now)) (shown_of A.view B.view self.old.present) (shown_of A.view B.view self.new.present) }
        ensures goes { StaysSound result self.old.present.pair self.new.present.pair self.new.is_sound }
    {
        self.is_sound = false;
        let answer = self.present.pair.second.write(at, piece);
        self.wrote(answer)
    }

    // The last disk was written. It goes on where that is done.
    fn wrote(&mut self, answer: DiskAnswer) -> DiskAnswer
        requires lives { self.old.is_dead ≡ false }
        requires failed { answer ≡ said.Failed → (self.old.present.pair.first.has_failed ≡ true) × (self.old.present.pair.second.has_failed ≡ true) }
        requires whole { answer ≡ said.Done → IsWholeAt A.view B.view (A.tells × B.tells) true self.old.present }
        ensures answer { result ≡ answer }
        ensures sound { answer ≡ said.Done → self.new.is_sound ≡ true }
        ensures tally { self.new.tally ≡ told answer self.old.tally }
        ensures present { self.new.present ≡ self.old.present }
    {
        if answer != DiskAnswer::Done {
            return self.count(answer);
        }
        self.is_sound = true;
        self.is_dirty = true;
        DiskAnswer::Done
    }

    fn sync_kept(&mut self) -> DiskAnswer
        ensures never_stops { result ≡ said.Stopped → ⊥ }
        ensures tally { self.new.tally ≡ told result self.old.tally }
        ensures syncs { A.tells × B.tells → Syncs result (shown_of A.view B.view self.old.present) (shown_of A.view B.view self.new.present) }
        ensures goes { StaysSound result self.old.present.pair self.new.present.pair self.new.is_sound }
    {
        if !self.is_sound {
            return DiskAnswer::NoMemory;
        }
        match self.present.pair.kept {
            Kept::Both => self.sync_both(),
            Kept::Leaving => self.refuse(),
            Kept::First => self.sync_first(),
            Kept::Second => self.sync_second(),
        }
    }

    fn sync_both(&mut self) -> DiskAnswer
        requires whole { self.old.present.pair.kept ≡ left.Both }
        requires sound { self.old.is_sound ≡ true }
        ensures never_stops { result ≡ said.Stopped → ⊥ }
        ensures tally { self.new.tally ≡ told result self.old.tally }
        ensures syncs { A.tells × B.tells → Syncs result (shown_of A.view B.view self.old.present) (shown_of A.view B.view self.new.present) }
        ensures goes { StaysSound result self.old.present.pair self.new.present.pair self.new.is_sound }
    {
        self.is_ahead = true;
        match self.present.pair.first.sync() {
            DiskAnswer::Done => {}
            DiskAnswer::Failed => {
                return match self.drop_first() {
                    DiskAnswer::Done => self.sync_second(),
                    fault => fault,
                };
            }
            fault => return self.settle(fault),
        }
        match self.present.pair.second.sync() {
            DiskAnswer::Failed => match self.drop_second() {
                DiskAnswer::Done => self.synced(DiskAnswer::Done),
                fault => fault,
            },
            answer => self.synced(answer),
        }
    }

    fn sync_first(&mut self) -> DiskAnswer
        requires kept { self.old.present.pair.kept ≡ left.First }
        requires sound { self.old.is_sound ≡ true }
        ensures never_stops { result ≡ said.Stopped → ⊥ }
        ensures tally { self.new.tally ≡ told result self.old.tally }
        ensures syncs { A.tells × B.tells → Syncs result (shown_of A.view B.view self.old.present) (shown_of A.view B.view self.new.present) }
        ensures goes { StaysSound result self.old.present.pair self.new.present.pair self.new.is_sound }
    {
        self.is_ahead = true;
        let answer = self.present.pair.first.sync();
        self.synced(answer)
    }

    fn sync_second(&mut self) -> DiskAnswer
        requires kept { self.old.present.pair.kept ≡ left.Second }
        requires sound { self.old.is_sound ≡ true }
        ensures never_stops { result ≡ said.Stopped → ⊥ }
        ensures tally { self.new.tally ≡ told result self.old.tally }
        ensures syncs { A.tells × B.tells → Syncs result (shown_of A.view B.view self.old.present) (shown_of A.view B.view self.new.present) }
        ensures goes { StaysSound result self.old.present.pair self.new.present.pair self.new.is_sound }
    {
        self.is_ahead = true;
        let answer = self.present.pair.second.sync();
        self.synced(answer)
    }

    // The last disk was synced.
    fn synced(&mut self, answer: DiskAnswer) -> DiskAnswer
        requires failed { answer ≡ said.Failed → (self.old.present.pair.first.has_failed ≡ true) × (self.old.present.pair.second.has_failed ≡ true) }
        requires sound { self.old.is_sound ≡ true }
        requires saved { answer ≡ said.Done → IsSavedAt A.view B.view (A.tells × B.tells) self.old.present }
        ensures answer { result ≡ answer }
        ensures tally { self.new.tally ≡ told answer self.old.tally }
        ensures syncs { A.tells × B.tells → Syncs answer (shown_of A.view B.view self.old.present) (shown_of A.view B.view self.new.present) }
        ensures goes { StaysSound result self.old.present.pair self.new.present.pair self.new.is_sound }
    {
        if answer != DiskAnswer::Done {
            return self.settle(answer);
        }
        self.save();
        DiskAnswer::Done
    }

    // A read or a sync that stops touches no disk.
    fn stop(&mut self) -> DiskAnswer
        ensures answer { result ≡ said.Stopped }
        ensures tally { self.new.tally ≡ self.old.tally }
        ensures present { self.new.present ≡ self.old.present }
    {
        self.is_sound = false;
        DiskAnswer::Stopped
    }

    // A write that stops is carried out on the first disk that isn't dropped. Where it isn't done there, it answers want of memory.
    fn stop_write(&mut self, at: u64, piece: &[u8]) -> DiskAnswer
        ensures never_done { result ≡ said.Done → ⊥ }
        ensures never_fails { result ≡ said.Failed → ⊥ }
        ensures tally { self.new.tally ≡ self.old.tally }
        ensures stopped { A.tells × B.tells → result ≡ said.Stopped → (shown_of A.view B.view self.new.present).gives ≡ written at piece.now (shown_of A.view B.view self.old.present).gives }
        ensures loosened { A.tells × B.tells → Loosened (InRange at (length piece.now)) (shown_of A.view B.view self.old.present) (shown_of A.view B.view self.new.present) }
        ensures disks { SameDisks self.old.present.pair self.new.present.pair }
    {
        if self.is_dead {
            return DiskAnswer::NoMemory;
        }
        self.is_sound = false;
        match self.present.pair.kept {
            Kept::Both | Kept::Leaving | Kept::First => self.stop_first(at, piece),
            Kept::Second => self.stop_second(at, piece),
        }
    }

    fn stop_first(&mut self, at: u64, piece: &[u8]) -> DiskAnswer
        requires lives { self.old.is_dead ≡ false }
        requires stuck { self.old.is_sound ≡ false }
        requires kept { self.old.present.pair.kept ≡ left.Second → ⊥ }
        ensures never_done { result ≡ said.Done → ⊥ }
        ensures never_fails { result ≡ said.Failed → ⊥ }
        ensures tally { self.new.tally ≡ self.old.tally }
        ensures stopped { A.tells × B.tells → result ≡ said.Stopped → (shown_of A.view B.view self.new.present).gives ≡ written at piece.now (shown_of A.view B.view self.old.present).gives }
        ensures loosened { A.tells × B.tells → Loosened (InRange at (length piece.now)) (shown_of A.view B.view self.old.present) (shown_of A.view B.view self.new.present) }
        ensures disks { SameDisks self.old.present.pair self.new.present.pair }
    {
        if self.present.pair.first.len.is_none() {
            return DiskAnswer::NoMemory;
        }
        stopped(self.present.pair.first.write(at, piece))
    }

    fn stop_second(&mut self, at: u64, piece: &[u8]) -> DiskAnswer
        requires lives { self.old.is_dead ≡ false }
        requires stuck { self.old.is_sound ≡ false }
        requires kept { self.old.present.pair.kept ≡ left.Second }
        ensures never_done { result ≡ said.Done → ⊥ }
        ensures never_fails { result ≡ said.Failed → ⊥ }
        ensures tally { self.new.tally ≡ self.old.tally }
        ensures stopped { A.tells × B.tells → result ≡ said.Stopped → (shown_of A.view B.view self.new.present).gives ≡ written at piece.now (shown_of A.view B.view self.old.present).gives }
        ensures loosened { A.tells × B.tells → Loosened (InRange at (length piece.now)) (shown_of A.view B.view self.old.present) (shown_of A.view B.view self.new.present) }
        ensures disks { SameDisks self.old.present.pair self.new.present.pair }
    {
        if self.present.pair.second.len.is_none() {
            return DiskAnswer::NoMemory;
        }
        stopped(self.present.pair.second.write(at, piece))
    }
}

// What a write that stops answers, by what the disk did with it.
fn stopped(answer: DiskAnswer) -> DiskAnswer
    ensures never_done { result ≡ said.Done → ⊥ }
    ensures never_fails { result ≡ said.Failed → ⊥ }
    ensures stopped { result ≡ said.Stopped → answer ≡ said.Done }
{
    match answer {
        DiskAnswer::Done => DiskAnswer::Stopped,
        DiskAnswer::Failed | DiskAnswer::Stopped | DiskAnswer::NoMemory => DiskAnswer::NoMemory,
    }
}
