// A mirror of which it's known, whatever is called, that it's over the two disks that it was opened over.
ghost use Rattle.std.specs.Prelude.{◌≡◌, ℕ, List};
ghost use Rattle.ec_mirror.specs.Disks.{IsPinned};
ghost use Rattle.ec_mirror.specs.Shown.{lent_of};

use crate::mirror::Mirror;
use ec_disk::{Choice, CrashDisk, Disk, DiskAnswer, DiskLen};
use std::marker::{Brand, PhantomData};

/// Two disks, in proofs alone: the names of the borrows that lead to them, and how often each had failed when it was handed in. The proof of a call
/// with `Brand` picks them.
pub trait Pins {
    ghost first: { ℕ };

    ghost second: { ℕ };

    ghost first_faults: { ℕ };

    ghost second_faults: { ℕ };
}

impl Pins for Brand {
    ghost first = { 0 };

    ghost second = { 0 };

    ghost first_faults = { 0 };

    ghost second_faults = { 0 };
}

/// A mirror over the two disks that `P` names.
#[derive(Drop)]
pub struct PinnedMirror<'a, A: CrashDisk, B: CrashDisk, P: Pins> {
    mirror: Mirror<'a, A, B>,
    of: PhantomData<P>,
    ghost pinned: { IsPinned A.counts B.counts P.first P.second P.first_faults P.second_faults (lent_of mirror.parts.present.pair) },
}

impl<'a, A: CrashDisk, B: CrashDisk, P: Pins> PinnedMirror<'a, A, B, P> {
    pub fn new(mirror: Mirror<'a, A, B>) -> PinnedMirror<'a, A, B, P>
        requires { IsPinned A.counts B.counts P.first P.second P.first_faults P.second_faults (lent_of mirror.parts.present.pair) }
        ensures { result.mirror ≡ mirror.entry }
    {
        PinnedMirror {
            mirror,
            of: PhantomData,
        }
    }

    pub fn into_mirror(self) -> Mirror<'a, A, B>
        ensures mirror { result ≡ self.entry.mirror }
        ensures pinned { IsPinned A.counts B.counts P.first P.second P.first_faults P.second_faults (lent_of result.parts.present.pair) }
    {
        self.mirror
    }
}

impl<A: CrashDisk, B: CrashDisk, P: Pins> Disk for PinnedMirror<'_, A, B, P> {
    ghost use Rattle.std.proofs.Common.{inl};
    ghost use Rattle.ec_mirror.specs.Moments.{given, given_synced};
    ghost use Rattle.ec_mirror.specs.PastLaws.{only_now};
    ghost use Rattle.ec_mirror.specs.Disks.{mirror_view};
    ghost use Rattle.ec_mirror.specs.Shown.{shown_of};
    ghost use Rattle.ec_mirror.specs.Tally.{counts_of};

    ghost tells = { A.tells × B.tells };

    ghost view = { λ m. mirror_view A.view B.view m.mirror };

    ghost counts = { λ m. counts_of m.mirror.parts.tally };

    ghost does = { λ old call new. Unit {0} };

    ghost given = { λ told m. given A.view B.view (A.given told.0) (B.given told.1) m.mirror.parts.present };

    ghost given_synced = { λ told m. given_synced A.view B.view m.mirror.parts.present };

    ghost counts_now = { λ told m since image earlier left. inl left };

    ghost only_now = { λ told m image left. only_now (shown_of A.view B.view) m.mirror.past.items (shown_of A.view B.view m.mirror.parts.present) image left };

    fn read_at(&mut self, at: u64, into: &mut [u8]) -> DiskAnswer {
        self.mirror.read_at(at, into)
    }

    fn write_at(&mut self, at: u64, piece: &[u8]) -> DiskAnswer {
        self.mirror.write_at(at, piece)
    }

    fn sync(&mut self) -> DiskAnswer {
        self.mirror.sync()
    }

    fn len(&mut self) -> DiskLen {
        self.mirror.len()
    }
}

impl<A: CrashDisk, B: CrashDisk, P: Pins> CrashDisk for PinnedMirror<'_, A, B, P> {
    ghost tries = { λ old trial new. Unit {0} };

    fn arm(&mut self, calls: u64) {
        self.mirror.arm(calls);
    }

    fn disarm(&mut self) {
        self.mirror.disarm();
    }

    fn power_cut(&mut self, choice: Choice) -> DiskAnswer {
        self.mirror.power_cut(choice)
    }
}
