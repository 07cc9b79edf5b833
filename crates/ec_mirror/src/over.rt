// How a mirror stands to its disks, and how they come back.
ghost use Rattle.std.specs.Prelude.{◌≡◌};
ghost use Rattle.ec_mirror.specs.Disks.{IsOne, StandsOver, faults_in, standing, mirror_view};

use crate::mirror::Mirror;
use crate::pair::Pair;
use ec_disk::CrashDisk;

/// The disks of a mirror.
#[derive(Drop)]
pub struct TwoDisks<'a, A: CrashDisk, B: CrashDisk> {
    pub first: &'a mut A,
    pub second: &'a mut B,
}

impl<'a, A: CrashDisk, B: CrashDisk> Mirror<'a, A, B> {
    /// Who lent them knows what became of them.
    pub fn into_disks(self) -> TwoDisks<'a, A, B>
        ensures first { (result.first.ghost_name ≡ self.entry.parts.present.pair.first.disk.ghost_name) × (result.first.now ≡ self.entry.parts.present.pair.first.disk.now) }
        ensures second { (result.second.ghost_name ≡ self.entry.parts.present.pair.second.disk.ghost_name) × (result.second.now ≡ self.entry.parts.present.pair.second.disk.now) }
    {
        let parts = self.parts;
        let present = parts.present;
        let Pair {
            first,
            second,
            kept: _,
        } = present.pair;
        let first = first.disk;
        let second = second.disk;
        TwoDisks { first, second }
    }

    /// A law, with an empty body: what the two disks that were handed in have to do with what the mirror shows.
    pub fn is_over_its_disks(&self)
        requires first { IsOne self.now.parts.present.pair.first.from.items }
        requires second { IsOne self.now.parts.present.pair.second.from.items }
        ensures { StandsOver (A.tells × B.tells) (standing self.now) self.now.parts.tally.faults (faults_in A.counts self.now.parts.present.pair.first.from.items) (faults_in B.counts self.now.parts.present.pair.second.from.items) (mirror_view A.view B.view self.now) (A.view self.now.parts.present.pair.first.disk.now) (B.view self.now.parts.present.pair.second.disk.now) (A.counts self.now.parts.present.pair.first.disk.now) (B.counts self.now.parts.present.pair.second.disk.now) }
    {}
}
