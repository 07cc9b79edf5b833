// What a mirror gives by what its disks give, and why a disk is dropped and a mirror fails. The functions have empty bodies, and their contracts are laws.
ghost use Rattle.std.specs.Prelude.{◌≡◌, ◌⊎◌, ◌≤◌, [], ◌∷◌, true, false};
ghost use Rattle.ec_base.specs.Outside.{Rose};
ghost use Rattle.ec_mirror.specs.Shown.{first_of, second_of, shown_of};
ghost use Rattle.ec_mirror.specs.declared.kept.Kept.TheVariants as left;

use crate::mirror::Mirror;
use ec_disk::CrashDisk;

impl<A: CrashDisk, B: CrashDisk> Mirror<'_, A, B> {
    /// While no disk is dropped, a mirror that goes on gives what each disk gives behind its header.
    pub fn gives_what_both_give(&self)
        ensures first { A.tells × B.tells → self.now.parts.is_sound ≡ true → self.now.parts.present.pair.kept ≡ left.Both → (shown_of A.view B.view self.now.parts.present).gives ≡ (first_of A.view B.view self.now.parts.present.pair).gives }
        ensures second { A.tells × B.tells → self.now.parts.is_sound ≡ true → self.now.parts.present.pair.kept ≡ left.Both → (shown_of A.view B.view self.now.parts.present).gives ≡ (second_of A.view B.view self.now.parts.present.pair).gives }
    {}

    /// Behind a drop it gives what the survivor gives there, unless generations or contents were left half written.
    pub fn gives_what_the_survivor_gives(&self)
        ensures first { A.tells × B.tells → self.now.parts.is_dead ≡ false → self.now.parts.present.pair.kept ≡ left.First → (shown_of A.view B.view self.now.parts.present).gives ≡ (first_of A.view B.view self.now.parts.present.pair).gives }
        ensures second { A.tells × B.tells → self.now.parts.is_dead ≡ false → self.now.parts.present.pair.kept ≡ left.Second → (shown_of A.view B.view self.now.parts.present).gives ≡ (second_of A.view B.view self.now.parts.present.pair).gives }
    {}

    /// A disk is dropped only where its faults have risen since it was handed in.
    pub fn drops_what_has_failed(&self)
        ensures first { (before : A) → self.now.parts.present.pair.first.from.items ≡ before ∷ [] → self.now.parts.present.pair.kept ≡ left.Second → Rose (A.counts before).faults (A.counts self.now.parts.present.pair.first.disk.now).faults }
        ensures leaving { (before : A) → self.now.parts.present.pair.first.from.items ≡ before ∷ [] → self.now.parts.present.pair.kept ≡ left.Leaving → Rose (A.counts before).faults (A.counts self.now.parts.present.pair.first.disk.now).faults }
        ensures second { (before : B) → self.now.parts.present.pair.second.from.items ≡ before ∷ [] → self.now.parts.present.pair.kept ≡ left.First → Rose (B.counts before).faults (B.counts self.now.parts.present.pair.second.disk.now).faults }
    {}

    /// It fails only where both disks have failed since they were handed in, or one of them alone in a power cut, or at a question for the length
    /// behind a write that wasn't done.
    pub fn fails_where_its_disks_have(&self)
        ensures both { (before : A) (other : B) → self.now.parts.present.pair.first.from.items ≡ before ∷ [] → self.now.parts.present.pair.second.from.items ≡ other ∷ [] → 1 ≤ self.now.parts.tally.faults → self.now.parts.tally.failed_alone ≡ false → Rose (A.counts before).faults (A.counts self.now.parts.present.pair.first.disk.now).faults × Rose (B.counts other).faults (B.counts self.now.parts.present.pair.second.disk.now).faults }
        ensures one { (before : A) (other : B) → self.now.parts.present.pair.first.from.items ≡ before ∷ [] → self.now.parts.present.pair.second.from.items ≡ other ∷ [] → 1 ≤ self.now.parts.tally.faults → Rose (A.counts before).faults (A.counts self.now.parts.present.pair.first.disk.now).faults ⊎ Rose (B.counts other).faults (B.counts self.now.parts.present.pair.second.disk.now).faults }
    {}
}
