// A disk over two.
ghost use Rattle.std.specs.Prelude.{◌≡◌, [], ◌∷◌, ◌++◌};

use crate::pair::Moment;
use crate::parts::Parts;
use ec_base::trace::Trace;
use ec_disk::{Choice, CrashDisk, Disk, DiskAnswer, DiskLen};
use std::mem;

/// Two disks that hold the same content behind their headers, as one disk. It goes on with one of them where the other one fails.
#[derive(Drop)]
pub struct Mirror<'a, A: CrashDisk, B: CrashDisk> {
    pub(crate) parts: Parts<'a, A, B>,
    // What it was before each call, in proofs alone.
    pub(crate) past: Trace<Moment<'a, A, B>>,
}

impl<'a, A: CrashDisk, B: CrashDisk> Mirror<'a, A, B> {
    pub(crate) fn new(parts: Parts<'a, A, B>) -> Mirror<'a, A, B>
        ensures { result.parts ≡ parts.entry }
    {
        Mirror {
            parts,
            past: Trace::new(),
        }
    }

    // Notes what it is before a call.
    fn note(&mut self)
        ensures parts { self.new.parts ≡ self.old.parts }
        ensures past { self.new.past.items ≡ self.old.past.items ++ self.old.parts.present ∷ [] }
    {
        let past = mem::replace(&mut self.past, Trace::new());
        self.past = past.and(&self.parts.present);
    }
}

impl<A: CrashDisk, B: CrashDisk> Disk for Mirror<'_, A, B> {
    ghost use Rattle.std.proofs.Common.{inl};
    ghost use Rattle.ec_mirror.specs.Past.{view_at};
    ghost use Rattle.ec_mirror.specs.Shown.{shown_of, SameDisks};
    ghost use Rattle.ec_mirror.specs.Tally.{counts_of, FailsWithBoth, LeavesSound};
    ghost use Rattle.ec_mirror.specs.Moments.{given, given_synced};
    ghost use Rattle.ec_mirror.specs.PastLaws.{only_now};

    ghost tells = { A.tells × B.tells };

    ghost view = { λ m. view_at (shown_of A.view B.view) m.past.items (shown_of A.view B.view m.parts.present) };

    ghost counts = { λ m. counts_of m.parts.tally };

    ghost does = { λ old call new. SameDisks old.parts.present.pair new.parts.present.pair × FailsWithBoth call old.parts.tally new.parts.tally × LeavesSound call old.parts.is_sound new.parts.is_sound };

    ghost given = { λ told m. given A.view B.view (A.given told.0) (B.given told.1) m.parts.present };

    ghost given_synced = { λ told m. given_synced A.view B.view m.parts.present };

    ghost counts_now = { λ told m since image earlier left. inl left };

    ghost only_now = { λ told m image left. only_now (shown_of A.view B.view) m.past.items (shown_of A.view B.view m.parts.present) image left };

    fn read_at(&mut self, at: u64, into: &mut [u8]) -> DiskAnswer {
        self.note();
        self.parts.read_at(at, into)
    }

    fn write_at(&mut self, at: u64, piece: &[u8]) -> DiskAnswer {
        self.note();
        self.parts.write_at(at, piece)
    }

    fn sync(&mut self) -> DiskAnswer {
        self.note();
        self.parts.sync()
    }

    fn len(&mut self) -> DiskLen {
        self.note();
        self.parts.len()
    }
}

impl<A: CrashDisk, B: CrashDisk> CrashDisk for Mirror<'_, A, B> {
    ghost use Rattle.ec_mirror.specs.Shown.{SameDisks};
    ghost use Rattle.ec_mirror.specs.Tally.{TriesWithBoth, TriesSound};

    ghost tries = { λ old trial new. SameDisks old.parts.present.pair new.parts.present.pair × TriesWithBoth trial old.parts.tally new.parts.tally × TriesSound trial old.parts.is_sound new.parts.is_sound };

    fn arm(&mut self, calls: u64) {
        self.parts.tally.armed = Some(calls);
    }

    fn disarm(&mut self) {
        self.parts.tally.armed = None;
    }

    fn power_cut(&mut self, choice: Choice) -> DiskAnswer {
        self.note();
        self.parts.power_cut(choice)
    }
}
