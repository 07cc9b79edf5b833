// Two disks, and which of them count.
ghost use Rattle.std.specs.Prelude.{◌≡◌, [], ◌∷◌};

use crate::kept::Kept;
use ec_base::trace::Trace;
use ec_disk::CrashDisk;
use ec_half::Half;

#[derive(Drop)]
pub(crate) struct Pair<'a, A: CrashDisk, B: CrashDisk> {
    pub(crate) first: Half<'a, A>,
    pub(crate) second: Half<'a, B>,
    pub(crate) kept: Kept,
}

/// What both disks are. In proofs alone: what they were when the mirror told last that all is synced, and what they were when they began to be made
/// anew, where that isn't done.
#[derive(Drop)]
pub(crate) struct Moment<'a, A: CrashDisk, B: CrashDisk> {
    pub(crate) pair: Pair<'a, A, B>,
    pub(crate) saved: Trace<Pair<'a, A, B>>,
    pub(crate) frozen: Trace<Pair<'a, A, B>>,
}

impl<'a, A: CrashDisk, B: CrashDisk> Moment<'a, A, B> {
    pub(crate) fn new(pair: Pair<'a, A, B>) -> Moment<'a, A, B>
        ensures pair { result.pair ≡ pair.entry }
        ensures saved { result.saved.items ≡ pair.entry ∷ [] }
        ensures frozen { result.frozen.items ≡ [] }
    {
        let saved = Trace::new().and(&pair);
        Moment {
            pair,
            saved,
            frozen: Trace::new(),
        }
    }

    /// What is there is synced.
    pub(crate) fn save(&mut self)
        ensures pair { self.new.pair ≡ self.old.pair }
        ensures saved { self.new.saved.items ≡ self.old.pair ∷ [] }
        ensures frozen { self.new.frozen ≡ self.old.frozen }
    {
        self.saved = Trace::new().and(&self.pair);
    }

    /// From here on it shows what it is now.
    pub(crate) fn freeze(&mut self)
        ensures pair { self.new.pair ≡ self.old.pair }
        ensures saved { self.new.saved ≡ self.old.saved }
        ensures frozen { self.new.frozen.items ≡ self.old.pair ∷ [] }
    {
        self.frozen = Trace::new().and(&self.pair);
    }

    /// It shows what it is.
    pub(crate) fn thaw(&mut self)
        ensures pair { self.new.pair ≡ self.old.pair }
        ensures saved { self.new.saved ≡ self.old.saved }
        ensures frozen { self.new.frozen.items ≡ [] }
    {
        self.frozen = Trace::new();
    }
}
