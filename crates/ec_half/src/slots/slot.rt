// The two slots of a disk's generation, of which one is written while the other one counts.
ghost use Rattle.std.specs.Prelude.{◌≡◌, ◌≤◌, ℕ, true, false, length};
ghost use Rattle.ec_disk.specs.declared.disk.DiskAnswer.TheVariants as said;
ghost use Rattle.ec_disk.specs.Effects.{InRange, IsSynced, Counted, LeavesOnly};
ghost use Rattle.ec_disk.specs.Runs.{Ran};
ghost use Rattle.ec_half.specs.OfSlots.Contents.{content};
ghost use Rattle.ec_half.specs.OfSlots.Slots.{AreReady, HoldsEither, place_of, other, header_bytes, slot_bytes};

use crate::slots::device::write_synced;
use ec_disk::{Disk, DiskAnswer};

// The byte of an open gate, an `O`; any other is shut.
const OPEN: u8 = 0x4F;

// What is written to shut a gate.
const SHUT: u8 = 0;

/// A gate byte, and a number behind it.
#[derive(Clone, Copy, Drop)]
pub enum Slot {
    First,
    Second,
}

impl Slot {
    ghost use Rattle.std.specs.Prelude.{◌≡◌};
    ghost use Rattle.ec_half.specs.OfSlots.Slots.{place_of, other};

    pub fn place(self) -> u64
        ensures { result ≡ place_of self }
    {
        match self {
            Slot::First => 512,
            Slot::Second => 1_024,
        }
    }

    pub fn other(self) -> Slot
        ensures { result ≡ other self }
    {
        match self {
            Slot::First => Slot::Second,
            Slot::Second => Slot::First,
        }
    }
}

/// Writes the next generation to the slot that doesn't hold the present one, whose gate is open: it's shut first.
pub fn write_open<D: Disk>(disk: &mut D, spare: Slot, number: u64) -> DiskAnswer
    ensures ran { D.tells → Ran (InRange (place_of spare) slot_bytes) (D.view disk.old) (D.view disk.new) }
    ensures any_moment { D.tells → (present : ℕ) → present ≤ number → AreReady (D.view disk.old) spare true present → LeavesOnly (D.view disk.old) (D.view disk.new) (HoldsEither spare present number) }
    ensures done { result ≡ said.Done → D.tells → (present : ℕ) → present ≤ number → AreReady (D.view disk.old) spare true present → AreReady (D.view disk.new) (other spare) true number }
    ensures content { result ≡ said.Done → D.tells → header_bytes ≤ length (D.view disk.old).gives → content (D.view disk.new).gives ≡ content (D.view disk.old).gives }
    ensures long { result ≡ said.Done → D.tells → header_bytes ≤ length (D.view disk.old).gives → header_bytes ≤ length (D.view disk.new).gives }
    ensures synced { result ≡ said.Done → D.tells → IsSynced (D.view disk.new) }
    ensures counts { Counted (D.counts disk.old) (D.counts disk.new) (result ≡ said.Failed) (result ≡ said.Stopped) }
{
    let at = spare.place();
    let answer = write_synced(disk, at, &[SHUT]);
    if answer != DiskAnswer::Done {
        return answer;
    }
    write_shut(disk, spare, number)
}

/// The same where the gate is shut. It isn't written over before the number is, since a crash may leave any byte there, and any number stands behind
/// it.
pub fn write_shut<D: Disk>(disk: &mut D, spare: Slot, number: u64) -> DiskAnswer
    ensures ran { D.tells → Ran (InRange (place_of spare) slot_bytes) (D.view disk.old) (D.view disk.new) }
    ensures any_moment { D.tells → (present : ℕ) → present ≤ number → AreReady (D.view disk.old) spare false present → LeavesOnly (D.view disk.old) (D.view disk.new) (HoldsEither spare present number) }
    ensures done { result ≡ said.Done → D.tells → (present : ℕ) → present ≤ number → AreReady (D.view disk.old) spare false present → AreReady (D.view disk.new) (other spare) true number }
    ensures content { result ≡ said.Done → D.tells → header_bytes ≤ length (D.view disk.old).gives → content (D.view disk.new).gives ≡ content (D.view disk.old).gives }
    ensures long { result ≡ said.Done → D.tells → header_bytes ≤ length (D.view disk.old).gives → header_bytes ≤ length (D.view disk.new).gives }
    ensures synced { result ≡ said.Done → D.tells → IsSynced (D.view disk.new) }
    ensures counts { Counted (D.counts disk.old) (D.counts disk.new) (result ≡ said.Failed) (result ≡ said.Stopped) }
{
    let at = spare.place();
    let answer = write_synced(disk, at + 1, &number.to_be_bytes());
    if answer != DiskAnswer::Done {
        return answer;
    }
    write_synced(disk, at, &[OPEN])
}
