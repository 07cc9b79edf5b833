// The parts of a mirror, and how it goes on.
ghost use Rattle.std.specs.Prelude.{◌≡◌, ◌≤◌, Some, [], ◌∷◌, length, true, false};
ghost use Rattle.ec_disk.specs.declared.disk.DiskAnswer.TheVariants as said;
ghost use Rattle.ec_half.specs.Contents.{Fewer, AllSynced};
ghost use Rattle.ec_half.specs.Headers.{most_generation};
ghost use Rattle.ec_mirror.specs.declared.kept.Kept.TheVariants as left;
ghost use Rattle.ec_mirror.specs.Numbers.{Numbered};
ghost use Rattle.ec_mirror.specs.Shown.{first_of, second_of, given_by, saved_by, shown_of, IsWholeAt, IsSavedAt, SameDisks};
ghost use Rattle.ec_mirror.specs.Tally.{told, told_alone};

use crate::kept::Kept;
use crate::pair::Moment;
use crate::tally::Tally;
use ec_disk::{CrashDisk, DiskAnswer};
use ec_half::MOST;

#[derive(Drop)]
pub(crate) struct Parts<'a, A: CrashDisk, B: CrashDisk> {
    pub(crate) present: Moment<'a, A, B>,
    /// The generation of the disks that aren't dropped.
    pub(crate) number: u64,
    /// Reads, writes and syncs are carried out. Else they answer want of memory until a power cut.
    pub(crate) is_sound: bool,
    /// Generations or contents were left half written: a power cut answers want of memory too.
    pub(crate) is_dead: bool,
    /// Something was written since the last sync.
    pub(crate) is_dirty: bool,
    /// A disk may have synced what the mirror doesn't tell to be synced.
    pub(crate) is_ahead: bool,
    /// The content's length where the mirror is dead.
    pub(crate) len: u64,
    pub(crate) tally: Tally,
    ghost first_unarmed: { present.pair.first.may_stop ≡ false },
    ghost second_unarmed: { present.pair.second.may_stop ≡ false },
    ghost lives: { is_sound ≡ true → is_dead ≡ false },
    // A disk is dropped only where a call of it has failed.
    ghost leaving: { present.pair.kept ≡ left.Leaving → present.pair.first.has_failed ≡ true },
    ghost without_first: { present.pair.kept ≡ left.Second → present.pair.first.has_failed ≡ true },
    ghost without_second: { present.pair.kept ≡ left.First → present.pair.second.has_failed ≡ true },
    ghost small: { number ≤ most_generation },
    ghost numbered: { is_dead ≡ false → Numbered present.pair.kept present.pair.first.generation.number present.pair.first.most present.pair.second.generation.number present.pair.second.most number },
    // The mirror has failed only where both disks have, or one of them alone.
    ghost both_failed: { 1 ≤ tally.faults → tally.failed_alone ≡ false → (present.pair.first.has_failed ≡ true) × (present.pair.second.has_failed ≡ true) },
    ghost one_failed: { 1 ≤ tally.faults → present.pair.first.has_failed ≡ false → present.pair.second.has_failed ≡ true },
    // It shows what it is, or what it was when it began to be made anew.
    ghost thawed: { is_dead ≡ false → present.frozen.items ≡ [] },
    ghost held: { is_dead ≡ true → present.frozen.items ≡ [] → ⊥ },
    ghost dead_len: { is_dead ≡ true → A.tells × B.tells → len ≡ length (saved_by A.view B.view present.frozen.items) },
    ghost stands: { is_dead ≡ false → present.pair.kept ≡ left.Leaving → ⊥ },
    ghost whole: { is_sound ≡ true → IsWholeAt A.view B.view (A.tells × B.tells) is_dirty present },
    ghost first_saved: { is_dead ≡ false → is_ahead ≡ false → A.tells × B.tells → (present.pair.kept ≡ left.Second → ⊥) → (first_of A.view B.view present.pair).synced ≡ saved_by A.view B.view present.saved.items },
    ghost second_saved: { is_dead ≡ false → is_ahead ≡ false → A.tells × B.tells → (present.pair.kept ≡ left.First → ⊥) → (second_of A.view B.view present.pair).synced ≡ saved_by A.view B.view present.saved.items },
}

impl<'a, A: CrashDisk, B: CrashDisk> Parts<'a, A, B> {
    /// From here on it shows what it is now, with a content of this length, until it's sound again.
    pub(crate) fn freeze(&mut self, len: u64)
        requires lives { self.old.is_dead ≡ false }
        requires len { A.tells × B.tells → len ≡ length (given_by A.view B.view self.old.present.pair) }
        ensures tally { self.new.tally ≡ self.old.tally }
        ensures pair { self.new.present.pair ≡ self.old.present.pair }
        ensures saved { self.new.present.saved ≡ self.old.present.saved }
        ensures shows { self.new.present.frozen.items ≡ self.old.present.pair ∷ [] }
        ensures number { self.new.number ≡ self.old.number }
        ensures is_dead { self.new.is_dead ≡ true }
        ensures is_dirty { self.new.is_dirty ≡ self.old.is_dirty }
        ensures ahead { self.new.is_ahead ≡ false → (self.old.is_ahead ≡ false) × (self.old.is_dirty ≡ false) }
    {
        self.is_sound = false;
        self.present.freeze();
        self.is_dead = true;
        self.len = len;
        self.is_ahead = self.is_ahead || self.is_dirty;
    }

    // The same, while the first disk is left alone.
    fn leave_first(&mut self, len: u64)
        requires failed { self.old.present.pair.first.has_failed ≡ true }
        requires len { self.old.present.pair.second.len ≡ Some len }
        ensures tally { self.new.tally ≡ self.old.tally }
        ensures pair { self.new.present.pair ≡ record self.old.present.pair { kept = left.Leaving } }
        ensures saved { self.new.present.saved ≡ self.old.present.saved }
        ensures shows { self.new.present.frozen.items ≡ record self.old.present.pair { kept = left.Leaving } ∷ [] }
        ensures number { self.new.number ≡ self.old.number }
        ensures is_dead { self.new.is_dead ≡ true }
        ensures is_dirty { self.new.is_dirty ≡ self.old.is_dirty }
        ensures ahead { self.new.is_ahead ≡ false → (self.old.is_ahead ≡ false) × (self.old.is_dirty ≡ false) }
    {
        self.is_sound = false;
        self.present.pair.kept = Kept::Leaving;
        self.present.freeze();
        self.is_dead = true;
        self.len = len;
        self.is_ahead = self.is_ahead || self.is_dirty;
    }

    /// It's sound under this generation, which the disks that aren't dropped have.
    pub(crate) fn thaw(&mut self, number: u64)
        requires small { number ≤ most_generation }
        requires stands { self.old.present.pair.kept ≡ left.Leaving → ⊥ }
        requires numbered { Numbered self.old.present.pair.kept self.old.present.pair.first.generation.number self.old.present.pair.first.most self.old.present.pair.second.generation.number self.old.present.pair.second.most number }
        requires whole { IsWholeAt A.view B.view (A.tells × B.tells) self.old.is_dirty self.old.present }
        requires first_saved { self.old.is_ahead ≡ false → A.tells × B.tells → (self.old.present.pair.kept ≡ left.Second → ⊥) → (first_of A.view B.view self.old.present.pair).synced ≡ saved_by A.view B.view self.old.present.saved.items }
        requires second_saved { self.old.is_ahead ≡ false → A.tells × B.tells → (self.old.present.pair.kept ≡ left.First → ⊥) → (second_of A.view B.view self.old.present.pair).synced ≡ saved_by A.view B.view self.old.present.saved.items }
        ensures tally { self.new.tally ≡ self.old.tally }
        ensures pair { self.new.present.pair ≡ self.old.present.pair }
        ensures saved { self.new.present.saved ≡ self.old.present.saved }
        ensures shows { self.new.present.frozen.items ≡ [] }
        ensures is_dead { self.new.is_dead ≡ false }
        ensures is_sound { self.new.is_sound ≡ true }
    {
        self.number = number;
        self.present.thaw();
        self.is_dead = false;
        self.is_sound = true;
    }

    /// What is there is synced.
    pub(crate) fn save(&mut self)
        requires sound { self.old.is_sound ≡ true }
        requires saved { IsSavedAt A.view B.view (A.tells × B.tells) self.old.present }
        ensures tally { self.new.tally ≡ self.old.tally }
        ensures pair { self.new.present.pair ≡ self.old.present.pair }
        ensures is_sound { self.new.is_sound ≡ true }
        ensures gives { (shown_of A.view B.view self.new.present).gives ≡ (shown_of A.view B.view self.old.present).gives }
        ensures saved { (shown_of A.view B.view self.new.present).synced ≡ (shown_of A.view B.view self.new.present).gives }
        ensures synced { A.tells × B.tells → AllSynced (shown_of A.view B.view self.new.present) }
        ensures fewer { A.tells × B.tells → Fewer (shown_of A.view B.view self.old.present) (shown_of A.view B.view self.new.present) }
    {
        self.present.save();
        self.is_dirty = false;
        self.is_ahead = false;
    }

    /// What a call answers that no disk is left for.
    pub(crate) fn settle(&mut self, answer: DiskAnswer) -> DiskAnswer
        requires { answer ≡ said.Failed → (self.old.present.pair.first.has_failed ≡ true) × (self.old.present.pair.second.has_failed ≡ true) }
        ensures sound { answer ≡ said.Done → self.new.is_sound ≡ self.old.is_sound }
        ensures answer { result ≡ answer }
        ensures tally { self.new.tally ≡ told answer self.old.tally }
        ensures present { self.new.present ≡ self.old.present }
    {
        match answer {
            DiskAnswer::Done => {}
            DiskAnswer::Failed => self.tally.fault(),
            DiskAnswer::Stopped | DiskAnswer::NoMemory => self.is_sound = false,
        }
        answer
    }

    /// The mirror's answer where the last disk has answered so.
    pub(crate) fn count(&mut self, answer: DiskAnswer) -> DiskAnswer
        requires { answer ≡ said.Failed → (self.old.present.pair.first.has_failed ≡ true) × (self.old.present.pair.second.has_failed ≡ true) }
        ensures answer { result ≡ answer }
        ensures tally { self.new.tally ≡ told answer self.old.tally }
        ensures present { self.new.present ≡ self.old.present }
        ensures is_dead { self.new.is_dead ≡ self.old.is_dead }
    {
        if answer == DiskAnswer::Failed {
            self.tally.fault();
        }
        answer
    }

    /// A disk has failed that isn't known to be the last one.
    pub(crate) fn fault(&mut self)
        requires { self.old.present.pair.first.has_failed ≡ false → self.old.present.pair.second.has_failed ≡ true }
        ensures tally { self.new.tally ≡ told_alone self.new.tally.failed_alone self.old.tally }
        ensures sound { self.new.is_sound ≡ self.old.is_sound }
        ensures present { self.new.present ≡ self.old.present }
    {
        if !self.present.pair.first.has_failed || !self.present.pair.second.has_failed {
            self.tally.failed_alone = true;
        }
        self.tally.fault();
    }

    /// It goes on no more until a power cut.
    pub(crate) fn refuse(&mut self) -> DiskAnswer
        ensures answer { result ≡ said.NoMemory }
        ensures tally { self.new.tally ≡ self.old.tally }
        ensures present { self.new.present ≡ self.old.present }
    {
        self.is_sound = false;
        DiskAnswer::NoMemory
    }

    /// Goes on with the second disk alone, whose generation is raised.
    pub(crate) fn drop_first(&mut self) -> DiskAnswer
        requires failed { self.old.present.pair.first.has_failed ≡ true }
        requires whole { self.old.present.pair.kept ≡ left.Both }
        requires lives { self.old.is_dead ≡ false }
        requires clean { A.tells × B.tells → self.old.is_dirty ≡ false → (second_of A.view B.view self.old.present.pair).gives ≡ saved_by A.view B.view self.old.present.saved.items }
        ensures never_stops { result ≡ said.Stopped → ⊥ }
        ensures tally { self.new.tally ≡ told result self.old.tally }
        ensures kept { result ≡ said.Done → self.new.present.pair.kept ≡ left.Second }
        ensures is_sound { result ≡ said.Done → self.new.is_sound ≡ true }
        ensures fewer { A.tells × B.tells → Fewer (shown_of A.view B.view self.old.present) (shown_of A.view B.view self.new.present) }
        ensures synced { (shown_of A.view B.view self.new.present).synced ≡ (shown_of A.view B.view self.old.present).synced }
        ensures gives { A.tells × B.tells → (first_of A.view B.view self.old.present.pair).gives ≡ (second_of A.view B.view self.old.present.pair).gives → (shown_of A.view B.view self.new.present).gives ≡ (shown_of A.view B.view self.old.present).gives }
        ensures second_gives { result ≡ said.Done → A.tells × B.tells → (shown_of A.view B.view self.new.present).gives ≡ (second_of A.view B.view self.old.present.pair).gives }
        ensures disks { SameDisks self.old.present.pair self.new.present.pair }
    {
        let Some(len) = self.present.pair.second.len else {
            return self.refuse();
        };
        if self.number >= MOST {
            return self.refuse();
        }
        self.leave_first(len);
        let number = self.number + 1;
        let answer = self.present.pair.second.raise(number);
        if answer != DiskAnswer::Done {
            return self.count(answer);
        }
        self.present.pair.kept = Kept::Second;
        self.thaw(number);
        DiskAnswer::Done
    }

    /// Goes on with the first disk alone, whose generation is raised.
    pub(crate) fn drop_second(&mut self) -> DiskAnswer
        requires failed { self.old.present.pair.second.has_failed ≡ true }
        requires whole { self.old.present.pair.kept ≡ left.Both }
        requires lives { self.old.is_dead ≡ false }
        requires clean { A.tells × B.tells → self.old.is_dirty ≡ false → (first_of A.view B.view self.old.present.pair).gives ≡ saved_by A.view B.view self.old.present.saved.items }
        ensures never_stops { result ≡ said.Stopped → ⊥ }
        ensures tally { self.new.tally ≡ told result self.old.tally }
        ensures kept { result ≡ said.Done → self.new.present.pair.kept ≡ left.First }
        ensures is_sound { result ≡ said.Done → self.new.is_sound ≡ true }
        ensures fewer { A.tells × B.tells → Fewer (shown_of A.view B.view self.old.present) (shown_of A.view B.view self.new.present) }
        ensures synced { (shown_of A.view B.view self.new.present).synced ≡ (shown_of A.view B.view self.old.present).synced }
        ensures gives { A.tells × B.tells → (shown_of A.view B.view self.new.present).gives ≡ (shown_of A.view B.view self.old.present).gives }
        ensures saved { result ≡ said.Done → IsSavedAt A.view B.view (A.tells × B.tells) self.new.present }
        ensures disks { SameDisks self.old.present.pair self.new.present.pair }
    {
        let Some(len) = self.present.pair.first.len else {
            return self.refuse();
        };
        if self.number >= MOST {
            return self.refuse();
        }
        self.freeze(len);
        let number = self.number + 1;
        let answer = self.present.pair.first.raise(number);
        if answer != DiskAnswer::Done {
            return self.count(answer);
        }
        self.present.pair.kept = Kept::First;
        self.thaw(number);
        DiskAnswer::Done
    }
}
