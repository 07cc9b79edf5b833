// Two disks begin as halves.
ghost use Rattle.std.specs.Prelude.{◌≡◌, ◌⊎◌, ◌≤◌, ◌<◌, ℕ, IsSome, IfOk, IfErr, max};
ghost use Rattle.ec_base.specs.Outside.{Rose};
ghost use Rattle.ec_disk.specs.Effects.{Rests};
ghost use Rattle.ec_half.specs.Contents.{HasHeader};
ghost use Rattle.ec_half.specs.Headers.{IsNoHalf, IsFoundOf, MayBeHalf, most_generation, number_of};
ghost use Rattle.ec_half.specs.OfSlots.Contents.{content};
ghost use Rattle.ec_half.specs.declared.fault.MirrorFault.TheVariants as fault;

use crate::fault::{MirrorFault, unmade};
use crate::header::{Found, Generation, MOST, NEW, begin, look_at};
use ec_disk::{Disk, DiskAnswer};

/// The generations of both disks, which aren't the last one. Both are looked at before anything is written; an empty one gets a header.
pub fn generations_of<A: Disk, B: Disk>(
    first: &mut A,
    second: &mut B,
) -> Result<(Generation, Generation), MirrorFault>
    ensures which { IfErr result (λ why. (k place : ℕ) → why ≡ fault.BadMirror k place → (k ≡ 1) ⊎ (k ≡ 2)) }
    ensures bad_first { IfErr result (λ why. (place : ℕ) → why ≡ fault.BadMirror 1 place → A.tells → IsNoHalf (A.view first.old).gives place) }
    ensures bad_second { IfErr result (λ why. (place : ℕ) → why ≡ fault.BadMirror 2 place → B.tells → IsNoHalf (B.view second.old).gives place) }
    ensures first_is_good { IfErr result (λ why. (place : ℕ) → why ≡ fault.BadMirror 2 place → A.tells → MayBeHalf (A.view first.old).gives) }
    ensures first_rests { IfErr result (λ why. (k place : ℕ) → why ≡ fault.BadMirror k place → A.tells → Rests (A.view first.old) (A.view first.new)) }
    ensures second_rests { IfErr result (λ why. (k place : ℕ) → why ≡ fault.BadMirror k place → B.tells → Rests (B.view second.old) (B.view second.new)) }
    ensures first_arms { IfErr result (λ why. (k place : ℕ) → why ≡ fault.BadMirror k place → IsSome (A.counts first.new).armed → IsSome (A.counts first.old).armed) }
    ensures second_arms { IfErr result (λ why. (k place : ℕ) → why ≡ fault.BadMirror k place → IsSome (B.counts second.new).armed → IsSome (B.counts second.old).armed) }
    ensures failed { IfErr result (λ why. why ≡ fault.DiskFailed → Rose (A.counts first.old).faults (A.counts first.new).faults ⊎ Rose (B.counts second.old).faults (B.counts second.new).faults) }
    ensures first_later { (A.counts first.old).faults ≤ (A.counts first.new).faults }
    ensures second_later { (B.counts second.old).faults ≤ (B.counts second.new).faults }
    ensures both_are_good { IfOk result (λ generations. (A.tells → MayBeHalf (A.view first.old).gives) × (B.tells → MayBeHalf (B.view second.old).gives)) }
    ensures first_number { IfOk result (λ generations. A.tells → generations.0.number ≡ number_of (A.view first.old).gives) }
    ensures second_number { IfOk result (λ generations. B.tells → generations.1.number ≡ number_of (B.view second.old).gives) }
    ensures small { IfOk result (λ generations. max generations.0.number generations.1.number < most_generation) }
    ensures first_header { IfOk result (λ generations. A.tells → HasHeader (A.view first.new)) }
    ensures second_header { IfOk result (λ generations. B.tells → HasHeader (B.view second.new)) }
    ensures first_content { IfOk result (λ generations. A.tells → content (A.view first.new).gives ≡ content (A.view first.old).gives) }
    ensures second_content { IfOk result (λ generations. B.tells → content (B.view second.new).gives ≡ content (B.view second.old).gives) }
{
    let found_first = match look_at(first, 1) {
        Ok(found) => found,
        Err(fault) => return Err(fault),
    };
    let found_second = match look_at(second, 2) {
        Ok(found) => found,
        Err(fault) => return Err(fault),
    };
    let one = match begun(first, found_first) {
        Ok(generation) => generation,
        Err(fault) => return Err(fault),
    };
    let two = match begun(second, found_second) {
        Ok(generation) => generation,
        Err(fault) => return Err(fault),
    };
    if one.number.max(two.number) >= MOST {
        return Err(MirrorFault::NoMemory);
    }
    Ok((one, two))
}

// The generation of a disk that was looked at. An empty one gets a header.
fn begun<D: Disk>(disk: &mut D, found: Found) -> Result<Generation, MirrorFault>
    ensures good { IfErr result (λ why. (k place : ℕ) → why ≡ fault.BadMirror k place → ⊥) }
    ensures failed { IfErr result (λ why. why ≡ fault.DiskFailed → Rose (D.counts disk.old).faults (D.counts disk.new).faults) }
    ensures later { (D.counts disk.old).faults ≤ (D.counts disk.new).faults }
    ensures number { IfOk result (λ generation. D.tells → IsFoundOf found (D.view disk.old).gives → generation.number ≡ number_of (D.view disk.old).gives) }
    ensures header { IfOk result (λ generation. D.tells → IsFoundOf found (D.view disk.old).gives → HasHeader (D.view disk.new)) }
    ensures content { IfOk result (λ generation. D.tells → IsFoundOf found (D.view disk.old).gives → content (D.view disk.new).gives ≡ content (D.view disk.old).gives) }
{
    match found {
        Found::Half(generation) => Ok(generation),
        Found::Empty => match begin(disk) {
            DiskAnswer::Done => Ok(NEW),
            answer => Err(unmade(answer)),
        },
    }
}
