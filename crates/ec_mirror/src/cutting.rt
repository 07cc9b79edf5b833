// What a power cut does with the disks of a mirror.
ghost use Rattle.std.specs.Prelude.{◌≡◌, ◌<◌, ◌≤◌, None, true, false};
ghost use Rattle.ec_disk.specs.Choices.{cut};
ghost use Rattle.ec_disk.specs.declared.disk.DiskAnswer.TheVariants as said;
ghost use Rattle.ec_half.specs.Contents.{Fewer, AllSynced};
ghost use Rattle.ec_half.specs.Headers.{most_generation};
ghost use Rattle.ec_mirror.specs.declared.kept.Kept.TheVariants as left;
ghost use Rattle.ec_mirror.specs.Numbers.{Numbered};
ghost use Rattle.ec_mirror.specs.Shown.{given_by, saved_by, synced_by, shown_of, IsWholeAt, IsSavedAt, SameDisks, StaysSound};
ghost use Rattle.ec_mirror.specs.Tally.{behind_cut};

use crate::kept::Kept;
use crate::pair::Pair;
use crate::parts::Parts;
use ec_disk::{Choice, CrashDisk, DiskAnswer};
use ec_half::{Joined, MOST, join};

impl<'a, A: CrashDisk, B: CrashDisk> Parts<'a, A, B> {
    /// Cuts the power of the disks that aren't dropped, and makes them alike.
    pub(crate) fn power_cut(&mut self, choice: Choice) -> DiskAnswer
        ensures never_stops { result ≡ said.Stopped → ⊥ }
        ensures tally { self.new.tally ≡ behind_cut result self.new.tally.failed_alone self.old.tally }
        ensures fewer { A.tells × B.tells → Fewer (shown_of A.view B.view self.old.present) (shown_of A.view B.view self.new.present) }
        ensures leaves { A.tells × B.tells → result ≡ said.Done → (shown_of A.view B.view self.new.present).gives ≡ cut choice (shown_of A.view B.view self.old.present).gives (shown_of A.view B.view self.old.present).synced }
        ensures all_synced { A.tells × B.tells → result ≡ said.Done → AllSynced (shown_of A.view B.view self.new.present) }
        ensures saved { A.tells × B.tells → result ≡ said.Done → (shown_of A.view B.view self.new.present).synced ≡ (shown_of A.view B.view self.new.present).gives }
        ensures goes { StaysSound result self.old.present.pair self.new.present.pair self.new.is_sound }
    {
        if !self.may_leave(choice) {
            return self.refuse();
        }
        self.is_sound = false;
        self.is_ahead = true;
        match self.cut(choice) {
            DiskAnswer::Done => self.renew(),
            fault => self.cut_short(fault),
        }
    }

    // Where a disk has synced more than the mirror told, it can't leave what was synced before.
    fn may_leave(&self, choice: Choice) -> bool
        ensures lives { result ≡ true → self.now.is_dead ≡ false }
        ensures leaves { result ≡ true → A.tells × B.tells → cut choice (given_by A.view B.view self.now.present.pair) (synced_by A.view B.view self.now.present.pair) ≡ cut choice (given_by A.view B.view self.now.present.pair) (saved_by A.view B.view self.now.present.saved.items) }
    {
        if self.is_dead {
            return false;
        }
        if self.is_ahead {
            return choice == Choice::New;
        }
        true
    }

    fn cut(&mut self, choice: Choice) -> DiskAnswer
        requires lives { self.old.is_dead ≡ false }
        requires ahead { self.old.is_ahead ≡ true }
        requires stuck { self.old.is_sound ≡ false }
        ensures never_stops { result ≡ said.Stopped → ⊥ }
        ensures failed { result ≡ said.Failed → self.new.present.pair.first.has_failed ≡ false → self.new.present.pair.second.has_failed ≡ true }
        ensures tally { self.new.tally ≡ self.old.tally }
        ensures is_dead { self.new.is_dead ≡ self.old.is_dead }
        ensures fewer { A.tells × B.tells → Fewer (shown_of A.view B.view self.old.present) (shown_of A.view B.view self.new.present) }
        ensures leaves { A.tells × B.tells → result ≡ said.Done → (shown_of A.view B.view self.new.present).gives ≡ cut choice (given_by A.view B.view self.old.present.pair) (synced_by A.view B.view self.old.present.pair) }
        ensures disks { SameDisks self.old.present.pair self.new.present.pair }
    {
        match self.present.pair.kept {
            Kept::Both => self.cut_both(choice),
            Kept::Leaving => DiskAnswer::NoMemory,
            Kept::First => self.present.pair.first.power_cut(choice),
            Kept::Second => self.present.pair.second.power_cut(choice),
        }
    }

    fn cut_both(&mut self, choice: Choice) -> DiskAnswer
        requires kept { self.old.present.pair.kept ≡ left.Both }
        requires lives { self.old.is_dead ≡ false }
        requires ahead { self.old.is_ahead ≡ true }
        requires stuck { self.old.is_sound ≡ false }
        ensures never_stops { result ≡ said.Stopped → ⊥ }
        ensures failed { result ≡ said.Failed → self.new.present.pair.first.has_failed ≡ false → self.new.present.pair.second.has_failed ≡ true }
        ensures tally { self.new.tally ≡ self.old.tally }
        ensures is_dead { self.new.is_dead ≡ self.old.is_dead }
        ensures fewer { A.tells × B.tells → Fewer (shown_of A.view B.view self.old.present) (shown_of A.view B.view self.new.present) }
        ensures leaves { A.tells × B.tells → result ≡ said.Done → (shown_of A.view B.view self.new.present).gives ≡ cut choice (given_by A.view B.view self.old.present.pair) (synced_by A.view B.view self.old.present.pair) }
        ensures disks { SameDisks self.old.present.pair self.new.present.pair }
    {
        match self.present.pair.first.power_cut(choice) {
            DiskAnswer::Done => self.present.pair.second.power_cut(choice),
            fault => fault,
        }
    }

    // Raises the generation of the disks that aren't dropped, and makes them alike.
    fn renew(&mut self) -> DiskAnswer
        requires lives { self.old.is_dead ≡ false }
        ensures never_stops { result ≡ said.Stopped → ⊥ }
        ensures tally { self.new.tally ≡ behind_cut result self.new.tally.failed_alone self.old.tally }
        ensures fewer { A.tells × B.tells → Fewer (shown_of A.view B.view self.old.present) (shown_of A.view B.view self.new.present) }
        ensures gives { A.tells × B.tells → result ≡ said.Done → (shown_of A.view B.view self.new.present).gives ≡ (shown_of A.view B.view self.old.present).gives }
        ensures all_synced { A.tells × B.tells → result ≡ said.Done → AllSynced (shown_of A.view B.view self.new.present) }
        ensures saved { A.tells × B.tells → result ≡ said.Done → (shown_of A.view B.view self.new.present).synced ≡ (shown_of A.view B.view self.new.present).gives }
        ensures goes { StaysSound result self.old.present.pair self.new.present.pair self.new.is_sound }
    {
        if self.number >= MOST {
            return self.refuse();
        }
        match self.present.pair.kept {
            Kept::Both => self.renew_both(),
            Kept::Leaving => self.refuse(),
            Kept::First => self.renew_first(),
            Kept::Second => self.renew_second(),
        }
    }

    // The first disk's content is copied to the second one, which isn't longer.
    fn renew_both(&mut self) -> DiskAnswer
        requires most { self.old.number < most_generation }
        requires kept { self.old.present.pair.kept ≡ left.Both }
        requires lives { self.old.is_dead ≡ false }
        ensures never_stops { result ≡ said.Stopped → ⊥ }
        ensures tally { self.new.tally ≡ behind_cut result self.new.tally.failed_alone self.old.tally }
        ensures fewer { A.tells × B.tells → Fewer (shown_of A.view B.view self.old.present) (shown_of A.view B.view self.new.present) }
        ensures gives { A.tells × B.tells → result ≡ said.Done → (shown_of A.view B.view self.new.present).gives ≡ (shown_of A.view B.view self.old.present).gives }
        ensures all_synced { A.tells × B.tells → result ≡ said.Done → AllSynced (shown_of A.view B.view self.new.present) }
        ensures saved { A.tells × B.tells → result ≡ said.Done → (shown_of A.view B.view self.new.present).synced ≡ (shown_of A.view B.view self.new.present).gives }
        ensures goes { StaysSound result self.old.present.pair self.new.present.pair self.new.is_sound }
    {
        let len = match self.present.pair.first.known_len() {
            Ok(len) => len,
            Err(fault) => return self.cut_short(fault),
        };
        let other_len = match self.present.pair.second.known_len() {
            Ok(len) => len,
            Err(fault) => return self.cut_short(fault),
        };
        if other_len > len {
            return self.refuse();
        }
        self.freeze(len);
        let number = self.number + 1;
        let Pair { first, second, .. } = &mut self.present.pair;
        match join(first, second, len, number) {
            Joined::Both => self.renewed(number),
            Joined::SourceAlone => {
                self.present.pair.kept = Kept::First;
                let number = self.present.pair.first.generation.number;
                self.renewed(number)
            }
            Joined::Fault(fault) => self.cut_short(fault),
        }
    }

    fn renew_first(&mut self) -> DiskAnswer
        requires most { self.old.number < most_generation }
        requires kept { self.old.present.pair.kept ≡ left.First }
        requires lives { self.old.is_dead ≡ false }
        ensures never_stops { result ≡ said.Stopped → ⊥ }
        ensures tally { self.new.tally ≡ behind_cut result self.new.tally.failed_alone self.old.tally }
        ensures fewer { A.tells × B.tells → Fewer (shown_of A.view B.view self.old.present) (shown_of A.view B.view self.new.present) }
        ensures gives { A.tells × B.tells → result ≡ said.Done → (shown_of A.view B.view self.new.present).gives ≡ (shown_of A.view B.view self.old.present).gives }
        ensures all_synced { A.tells × B.tells → result ≡ said.Done → AllSynced (shown_of A.view B.view self.new.present) }
        ensures saved { A.tells × B.tells → result ≡ said.Done → (shown_of A.view B.view self.new.present).synced ≡ (shown_of A.view B.view self.new.present).gives }
        ensures goes { StaysSound result self.old.present.pair self.new.present.pair self.new.is_sound }
    {
        let len = match self.present.pair.first.known_len() {
            Ok(len) => len,
            Err(fault) => return self.cut_short(fault),
        };
        self.freeze(len);
        let number = self.number + 1;
        match self.present.pair.first.raise(number) {
            DiskAnswer::Done => self.renewed(number),
            fault => self.cut_short(fault),
        }
    }

    fn renew_second(&mut self) -> DiskAnswer
        requires most { self.old.number < most_generation }
        requires kept { self.old.present.pair.kept ≡ left.Second }
        requires lives { self.old.is_dead ≡ false }
        ensures never_stops { result ≡ said.Stopped → ⊥ }
        ensures tally { self.new.tally ≡ behind_cut result self.new.tally.failed_alone self.old.tally }
        ensures fewer { A.tells × B.tells → Fewer (shown_of A.view B.view self.old.present) (shown_of A.view B.view self.new.present) }
        ensures gives { A.tells × B.tells → result ≡ said.Done → (shown_of A.view B.view self.new.present).gives ≡ (shown_of A.view B.view self.old.present).gives }
        ensures all_synced { A.tells × B.tells → result ≡ said.Done → AllSynced (shown_of A.view B.view self.new.present) }
        ensures saved { A.tells × B.tells → result ≡ said.Done → (shown_of A.view B.view self.new.present).synced ≡ (shown_of A.view B.view self.new.present).gives }
        ensures goes { StaysSound result self.old.present.pair self.new.present.pair self.new.is_sound }
    {
        let len = match self.present.pair.second.known_len() {
            Ok(len) => len,
            Err(fault) => return self.cut_short(fault),
        };
        self.freeze(len);
        let number = self.number + 1;
        match self.present.pair.second.raise(number) {
            DiskAnswer::Done => self.renewed(number),
            fault => self.cut_short(fault),
        }
    }

    fn renewed(&mut self, number: u64) -> DiskAnswer
        requires small { number ≤ most_generation }
        requires stands { self.old.present.pair.kept ≡ left.Leaving → ⊥ }
        requires numbered { Numbered self.old.present.pair.kept self.old.present.pair.first.generation.number self.old.present.pair.first.most self.old.present.pair.second.generation.number self.old.present.pair.second.most number }
        requires whole { IsWholeAt A.view B.view (A.tells × B.tells) true self.old.present }
        requires saved { IsSavedAt A.view B.view (A.tells × B.tells) self.old.present }
        ensures answer { result ≡ said.Done }
        ensures tally { self.new.tally ≡ record self.old.tally { armed = None } }
        ensures gives { (shown_of A.view B.view self.new.present).gives ≡ given_by A.view B.view self.old.present.pair }
        ensures all_synced { A.tells × B.tells → AllSynced (shown_of A.view B.view self.new.present) }
        ensures saved { (shown_of A.view B.view self.new.present).synced ≡ (shown_of A.view B.view self.new.present).gives }
        ensures goes { SameDisks self.old.present.pair self.new.present.pair × (self.new.is_sound ≡ true) }
    {
        self.is_dirty = true;
        self.is_ahead = true;
        self.thaw(number);
        self.save();
        self.tally.armed = None;
        DiskAnswer::Done
    }

    // It's not done. The fault of one disk is the mirror's here.
    fn cut_short(&mut self, answer: DiskAnswer) -> DiskAnswer
        requires failed { answer ≡ said.Failed → self.old.present.pair.first.has_failed ≡ false → self.old.present.pair.second.has_failed ≡ true }
        requires not_done { answer ≡ said.Done → ⊥ }
        ensures answer { result ≡ answer }
        ensures tally { self.new.tally ≡ behind_cut answer self.new.tally.failed_alone self.old.tally }
        ensures present { self.new.present ≡ self.old.present }
    {
        if answer == DiskAnswer::Failed {
            self.fault();
        }
        answer
    }
}
