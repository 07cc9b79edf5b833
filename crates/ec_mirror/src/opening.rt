// Two disks become a mirror.
ghost use Rattle.std.specs.Prelude.{◌≡◌, ◌⊎◌, ◌≤◌, ◌<◌, ℕ, [], ◌∷◌, None, Err, IsSome, IsOk, IfOk, IfErr, IsErrOf, true, false};
ghost use Rattle.ec_base.specs.Outside.{Rose};
ghost use Rattle.ec_disk.specs.Effects.{Rests};
ghost use Rattle.ec_disk.specs.declared.disk.DiskAnswer.TheVariants as said;
ghost use Rattle.ec_half.specs.Contents.{content_behind, HasHeader, AllSynced};
ghost use Rattle.ec_half.specs.Headers.{IsNoHalf, MayBeHalf, most_generation};
ghost use Rattle.ec_half.specs.declared.fault.MirrorFault.TheVariants as fault;
ghost use Rattle.ec_mirror.specs.declared.kept.Kept.TheVariants as left;
ghost use Rattle.ec_mirror.specs.Joins.{content_of, joined_of, lead};
ghost use Rattle.ec_mirror.specs.Numbers.{Numbered};
ghost use Rattle.ec_mirror.specs.Shown.{first_of, second_of, given_by, shown_of, IsWhole, IsSaved};

use crate::kept::Kept;
use crate::mirror::Mirror;
use crate::pair::{Moment, Pair};
use crate::parts::Parts;
use crate::tally::Tally;
use ec_disk::{CrashDisk, DiskAnswer};
use ec_half::{Half, MirrorFault, generations_of, join_from, unmade};

/// Two disks that became no mirror, and why.
#[derive(Drop)]
pub struct NoMirror<'a, A: CrashDisk, B: CrashDisk> {
    pub fault: MirrorFault,
    pub first: &'a mut A,
    pub second: &'a mut B,
}

impl<'a, A: CrashDisk, B: CrashDisk> Mirror<'a, A, B> {
    /// Makes both disks alike, by the one whose generation is greater, the first one in a tie. A disk that is armed and doesn't stop here isn't
    /// armed any more.
    pub fn open(first: &'a mut A, second: &'a mut B) -> Result<Mirror<'a, A, B>, MirrorFault>
        ensures which { (k place : ℕ) → result ≡ Err (fault.BadMirror k place) → (k ≡ 1) ⊎ (k ≡ 2) }
        ensures bad_first { (place : ℕ) → result ≡ Err (fault.BadMirror 1 place) → A.tells → IsNoHalf (A.view first.old).gives place }
        ensures bad_second { (place : ℕ) → result ≡ Err (fault.BadMirror 2 place) → B.tells → IsNoHalf (B.view second.old).gives place }
        ensures first_is_good { (place : ℕ) → result ≡ Err (fault.BadMirror 2 place) → A.tells → MayBeHalf (A.view first.old).gives }
        ensures both_are_good { IsOk result → (A.tells → MayBeHalf (A.view first.old).gives) × (B.tells → MayBeHalf (B.view second.old).gives) }
        ensures content { IfOk result (λ mirror. A.tells → B.tells → (lead mirror.parts.present.pair.kept (content_behind (A.view mirror.parts.present.pair.first.disk.now)) (content_behind (B.view mirror.parts.present.pair.second.disk.now))).gives ≡ content_of (A.view first.old).gives (B.view second.old).gives) }
        ensures alike { IfOk result (λ mirror. A.tells → B.tells → mirror.parts.present.pair.kept ≡ left.Both → (content_behind (A.view mirror.parts.present.pair.first.disk.now)).gives ≡ (content_behind (B.view mirror.parts.present.pair.second.disk.now)).gives) }
        ensures gives { IfOk result (λ mirror. A.tells → B.tells → (shown_of A.view B.view mirror.parts.present).gives ≡ content_of (A.view first.old).gives (B.view second.old).gives) }
        ensures synced { IfOk result (λ mirror. A.tells × B.tells → AllSynced (shown_of A.view B.view mirror.parts.present)) }
        ensures sound { IfOk result (λ mirror. mirror.parts.is_sound ≡ true) }
        ensures counts { IfOk result (λ mirror. mirror.parts.tally ≡ record { calls = 0; faults = 0; stops = 0; armed = None; failed_alone = false }) }
        ensures first_from { IfOk result (λ mirror. (before : A) × (mirror.parts.present.pair.first.from.items ≡ before ∷ []) × ((A.counts first.old).faults ≤ (A.counts before).faults)) }
        ensures second_from { IfOk result (λ mirror. (before : B) × (mirror.parts.present.pair.second.from.items ≡ before ∷ []) × ((B.counts second.old).faults ≤ (B.counts before).faults)) }
        ensures first_disk { IfOk result (λ mirror. mirror.parts.present.pair.first.disk.ghost_name ≡ first.entry.ghost_name) }
        ensures second_disk { IfOk result (λ mirror. mirror.parts.present.pair.second.disk.ghost_name ≡ second.entry.ghost_name) }
    {
        match Mirror::open_or_give_back(first, second) {
            Ok(mirror) => Ok(mirror),
            Err(back) => Err(back.fault),
        }
    }

    /// The same, but disks that become no mirror come back. Where one is bad, nothing was written to either. Where one failed, it has counted that.
    pub fn open_or_give_back(
        first: &'a mut A,
        second: &'a mut B,
    ) -> Result<Mirror<'a, A, B>, NoMirror<'a, A, B>>
        ensures which { IfErr result (λ back. (k place : ℕ) → back.fault ≡ fault.BadMirror k place → (k ≡ 1) ⊎ (k ≡ 2)) }
        ensures bad_first { IfErr result (λ back. (place : ℕ) → back.fault ≡ fault.BadMirror 1 place → A.tells → IsNoHalf (A.view first.old).gives place) }
        ensures bad_second { IfErr result (λ back. (place : ℕ) → back.fault ≡ fault.BadMirror 2 place → B.tells → IsNoHalf (B.view second.old).gives place) }
        ensures first_is_good { IfErr result (λ back. (place : ℕ) → back.fault ≡ fault.BadMirror 2 place → A.tells → MayBeHalf (A.view first.old).gives) }
        ensures first_rests { IfErr result (λ back. (k place : ℕ) → back.fault ≡ fault.BadMirror k place → A.tells → Rests (A.view first.old) (A.view back.first.now)) }
        ensures second_rests { IfErr result (λ back. (k place : ℕ) → back.fault ≡ fault.BadMirror k place → B.tells → Rests (B.view second.old) (B.view back.second.now)) }
        ensures first_arms { IfErr result (λ back. (k place : ℕ) → back.fault ≡ fault.BadMirror k place → IsSome (A.counts back.first.now).armed → IsSome (A.counts first.old).armed) }
        ensures second_arms { IfErr result (λ back. (k place : ℕ) → back.fault ≡ fault.BadMirror k place → IsSome (B.counts back.second.now).armed → IsSome (B.counts second.old).armed) }
        ensures failed { IfErr result (λ back. back.fault ≡ fault.DiskFailed → Rose (A.counts first.old).faults (A.counts back.first.now).faults ⊎ Rose (B.counts second.old).faults (B.counts back.second.now).faults) }
        ensures first_back { IfErr result (λ back. back.first.ghost_name ≡ first.entry.ghost_name) }
        ensures second_back { IfErr result (λ back. back.second.ghost_name ≡ second.entry.ghost_name) }
        ensures both_are_good { IsOk result → (A.tells → MayBeHalf (A.view first.old).gives) × (B.tells → MayBeHalf (B.view second.old).gives) }
        ensures content { IfOk result (λ mirror. A.tells → B.tells → (lead mirror.parts.present.pair.kept (content_behind (A.view mirror.parts.present.pair.first.disk.now)) (content_behind (B.view mirror.parts.present.pair.second.disk.now))).gives ≡ content_of (A.view first.old).gives (B.view second.old).gives) }
        ensures alike { IfOk result (λ mirror. A.tells → B.tells → mirror.parts.present.pair.kept ≡ left.Both → (content_behind (A.view mirror.parts.present.pair.first.disk.now)).gives ≡ (content_behind (B.view mirror.parts.present.pair.second.disk.now)).gives) }
        ensures gives { IfOk result (λ mirror. A.tells → B.tells → (shown_of A.view B.view mirror.parts.present).gives ≡ content_of (A.view first.old).gives (B.view second.old).gives) }
        ensures synced { IfOk result (λ mirror. A.tells × B.tells → AllSynced (shown_of A.view B.view mirror.parts.present)) }
        ensures sound { IfOk result (λ mirror. mirror.parts.is_sound ≡ true) }
        ensures counts { IfOk result (λ mirror. mirror.parts.tally ≡ record { calls = 0; faults = 0; stops = 0; armed = None; failed_alone = false }) }
        ensures first_from { IfOk result (λ mirror. (before : A) × (mirror.parts.present.pair.first.from.items ≡ before ∷ []) × ((A.counts first.old).faults ≤ (A.counts before).faults)) }
        ensures second_from { IfOk result (λ mirror. (before : B) × (mirror.parts.present.pair.second.from.items ≡ before ∷ []) × ((B.counts second.old).faults ≤ (B.counts before).faults)) }
        ensures first_disk { IfOk result (λ mirror. mirror.parts.present.pair.first.disk.ghost_name ≡ first.entry.ghost_name) }
        ensures second_disk { IfOk result (λ mirror. mirror.parts.present.pair.second.disk.ghost_name ≡ second.entry.ghost_name) }
    {
        let generations = match generations_of(first, second) {
            Ok(generations) => generations,
            Err(fault) => {
                return Err(NoMirror {
                    fault,
                    first,
                    second,
                });
            }
        };
        let first = Half::new(first, generations.0);
        let second = Half::new(second, generations.1);
        let mut pair = Pair {
            first,
            second,
            kept: Kept::Both,
        };
        let number = generations.0.number.max(generations.1.number) + 1;
        let number = match joined(&mut pair, number) {
            Ok(number) => number,
            Err(answer) => return Err(parted(pair, unmade(answer))),
        };
        pair.first.disarm();
        pair.second.disarm();
        Ok(Mirror::new(opened(pair, number)))
    }
}

// Two disks that weren't joined, and why.
fn parted<'a, A: CrashDisk, B: CrashDisk>(
    pair: Pair<'a, A, B>,
    fault: MirrorFault,
) -> NoMirror<'a, A, B>
    ensures fault { result.fault ≡ fault }
    ensures first { (result.first.ghost_name ≡ pair.entry.first.disk.ghost_name) × (result.first.now ≡ pair.entry.first.disk.now) }
    ensures second { (result.second.ghost_name ≡ pair.entry.second.disk.ghost_name) × (result.second.now ≡ pair.entry.second.disk.now) }
{
    let Pair {
        first,
        second,
        kept: _,
    } = pair;
    let first = first.disk;
    let second = second.disk;
    NoMirror {
        fault,
        first,
        second,
    }
}

// Makes both disks alike, under this generation, or one of them alone, under the next. The generation that they have then.
fn joined<'a, A: CrashDisk, B: CrashDisk>(
    pair: &mut Pair<'a, A, B>,
    number: u64,
) -> Result<u64, DiskAnswer>
    requires whole { pair.old.kept ≡ left.Both }
    requires first { pair.old.first.most < number }
    requires second { pair.old.second.most < number }
    requires small { number ≤ most_generation }
    ensures first_leads { pair.new.kept ≡ left.First → pair.old.second.generation.number ≤ pair.old.first.generation.number }
    ensures second_leads { pair.new.kept ≡ left.Second → pair.old.first.generation.number < pair.old.second.generation.number }
    ensures first_from { pair.new.first.from ≡ pair.old.first.from }
    ensures second_from { pair.new.second.from ≡ pair.old.second.from }
    ensures first_disk { pair.new.first.disk.ghost_name ≡ pair.old.first.disk.ghost_name }
    ensures second_disk { pair.new.second.disk.ghost_name ≡ pair.old.second.disk.ghost_name }
    ensures failed { IsErrOf result said.Failed → (pair.new.first.has_failed ≡ true) ⊎ (pair.new.second.has_failed ≡ true) }
    ensures numbered { IfOk result (λ made. Numbered pair.new.kept pair.new.first.generation.number pair.new.first.most pair.new.second.generation.number pair.new.second.most made) }
    ensures small { IfOk result (λ made. made ≤ most_generation) }
    ensures whole { pair.new.kept ≡ left.Leaving → ⊥ }
    ensures without_first { pair.new.kept ≡ left.Second → pair.new.first.has_failed ≡ true }
    ensures without_second { pair.new.kept ≡ left.First → pair.new.second.has_failed ≡ true }
    ensures content { IfOk result (λ made. A.tells → B.tells → HasHeader (A.view pair.old.first.disk.now) → HasHeader (B.view pair.old.second.disk.now) → (lead pair.new.kept (content_behind (A.view pair.new.first.disk.now)) (content_behind (B.view pair.new.second.disk.now))).gives ≡ joined_of pair.old.first.generation.number pair.old.second.generation.number (content_behind (A.view pair.old.first.disk.now)).gives (content_behind (B.view pair.old.second.disk.now)).gives) }
    ensures alike { IfOk result (λ made. A.tells → B.tells → HasHeader (A.view pair.old.first.disk.now) → HasHeader (B.view pair.old.second.disk.now) → pair.new.kept ≡ left.Both → (content_behind (A.view pair.new.first.disk.now)).gives ≡ (content_behind (B.view pair.new.second.disk.now)).gives) }
    ensures whole_at { IfOk result (λ made. IsWhole ((A.tells × B.tells) × (HasHeader (A.view pair.old.first.disk.now) × HasHeader (B.view pair.old.second.disk.now))) pair.new.kept (first_of A.view B.view pair.new) (second_of A.view B.view pair.new) pair.new.first.len pair.new.second.len true []) }
    ensures saved { IfOk result (λ made. IsSaved ((A.tells × B.tells) × (HasHeader (A.view pair.old.first.disk.now) × HasHeader (B.view pair.old.second.disk.now))) pair.new.kept (first_of A.view B.view pair.new) (second_of A.view B.view pair.new)) }
{
    if pair.second.generation.number <= pair.first.generation.number {
        let joined = join_from(&mut pair.first, &mut pair.second, number)?;
        pair.kept = kept_by(joined, Kept::First);
        Ok(pair.first.generation.number)
    } else {
        let joined = join_from(&mut pair.second, &mut pair.first, number)?;
        pair.kept = kept_by(joined, Kept::Second);
        Ok(pair.second.generation.number)
    }
}

// The disks that count, where one of them goes on alone or both do.
fn kept_by(joined: bool, alone: Kept) -> Kept
    ensures both { joined ≡ true → result ≡ left.Both }
    ensures alone { joined ≡ false → result ≡ alone }
{
    if joined { Kept::Both } else { alone }
}

fn opened<'a, A: CrashDisk, B: CrashDisk>(pair: Pair<'a, A, B>, number: u64) -> Parts<'a, A, B>
    requires first { pair.first.may_stop ≡ false }
    requires second { pair.second.may_stop ≡ false }
    requires whole { pair.kept ≡ left.Leaving → ⊥ }
    requires whole_at { IsWhole (A.tells × B.tells) pair.kept (first_of A.view B.view pair) (second_of A.view B.view pair) pair.first.len pair.second.len true [] }
    requires saved { IsSaved (A.tells × B.tells) pair.kept (first_of A.view B.view pair) (second_of A.view B.view pair) }
    requires small { number ≤ most_generation }
    requires numbered { Numbered pair.kept pair.first.generation.number pair.first.most pair.second.generation.number pair.second.most number }
    requires without_first { pair.kept ≡ left.Second → pair.first.has_failed ≡ true }
    requires without_second { pair.kept ≡ left.First → pair.second.has_failed ≡ true }
    ensures pair { result.present.pair ≡ pair.entry }
    ensures shows { (shown_of A.view B.view result.present).gives ≡ given_by A.view B.view result.present.pair }
    ensures synced { A.tells × B.tells → AllSynced (shown_of A.view B.view result.present) }
    ensures sound { result.is_sound ≡ true }
    ensures counts { result.tally ≡ record { calls = 0; faults = 0; stops = 0; armed = None; failed_alone = false } }
{
    Parts {
        present: Moment::new(pair),
        number,
        is_sound: true,
        is_dead: false,
        is_dirty: false,
        is_ahead: false,
        len: 0,
        tally: Tally::new(),
    }
}
