// What stands in front of a disk's content.
ghost use Rattle.std.specs.Prelude.{◌≡◌, ◌<◌, ◌≤◌, ◌+◌, ℕ, Ok, Err, None, Some, IsOk, IfOk, IsErrOf, length};
ghost use Rattle.std.specs.Int.{w64, from_be_bytes};
ghost use Rattle.ec_disk.specs.Disk.{part};
ghost use Rattle.ec_disk.specs.Effects.{Counted, IsSynced, LeavesOnly, Rests};
ghost use Rattle.ec_disk.specs.declared.disk.DiskAnswer.TheVariants as said;
ghost use Rattle.ec_half.specs.Contents.{IsHalf, HasHeader, HasLength};
ghost use Rattle.ec_half.specs.Headers.{ShowsHeader, IsNewest, IsFound, IsBad, IsNoHalf, IsFoundOf, MayBeHalf, AllHave, next_of};
ghost use Rattle.ec_half.specs.declared.fault.MirrorFault.TheVariants as fault;
ghost use Rattle.ec_half.specs.declared.header.Found.TheVariants as found;
ghost use Rattle.ec_half.specs.declared.header.Generation.{Generation};
ghost use Rattle.ec_half.specs.OfSlots.Contents.{content};
ghost use Rattle.ec_half.specs.OfSlots.Slots.{HoldsEither, header_bytes, other};

use crate::fault::{MirrorFault, done};
use crate::slots::{Slot, write_open, write_shut};
use ec_disk::{Disk, DiskAnswer, DiskLen};

/// The bytes in front of the content.
pub const HEADER_BYTES: u64 = 4_096;

/// The last generation.
pub const MOST: u64 = 1 << 62;

// The first word of each disk of a mirror.
const WORD: [u8; 8] = *b"ECHOMIR1";

// What is read of the header: the word and both slots.
const READ_BYTES: usize = 1_033;

// The byte of an open gate, an `O`; any other is shut.
const OPEN: u8 = 0x4F;

/// A disk's generation, and the slot that holds it.
#[derive(Clone, Copy, Drop)]
pub struct Generation {
    pub number: u64,
    pub slot: Slot,
    /// Whether the other slot's gate is open.
    pub is_open: bool,
}

impl Generation {
    ghost use Rattle.std.specs.Prelude.{◌≡◌};
    ghost use Rattle.ec_half.specs.Headers.{next_of};

    /// The next one.
    pub fn next(self, number: u64) -> Generation
        ensures { result ≡ next_of self number }
    {
        Generation {
            number,
            slot: self.slot.other(),
            is_open: true,
        }
    }
}

/// Raises a disk's generation to this number, by the slot that doesn't hold the present one.
pub fn raise<D: Disk>(disk: &mut D, present: Generation, number: u64) -> DiskAnswer
    ensures half { result ≡ said.Done → D.tells → (len : ℕ) → HasLength (D.view disk.old) len → IsHalf (D.view disk.new) len }
    ensures content { result ≡ said.Done → D.tells → HasHeader (D.view disk.old) → content (D.view disk.new).gives ≡ content (D.view disk.old).gives }
    ensures synced { result ≡ said.Done → D.tells → IsSynced (D.view disk.new) }
    ensures any_moment { D.tells → present.number ≤ number → AllHave (D.view disk.old) present → LeavesOnly (D.view disk.old) (D.view disk.new) (HoldsEither (other present.slot) present.number number) }
    ensures raised { result ≡ said.Done → D.tells → present.number ≤ number → AllHave (D.view disk.old) present → AllHave (D.view disk.new) (next_of present number) }
    ensures counts { Counted (D.counts disk.old) (D.counts disk.new) (result ≡ said.Failed) (result ≡ said.Stopped) }
{
    let spare = present.slot.other();
    if present.is_open {
        write_open(disk, spare, number)
    } else {
        write_shut(disk, spare, number)
    }
}

/// How a new disk begins.
pub const NEW: Generation = Generation {
    number: 1,
    slot: Slot::First,
    is_open: false,
};

/// What a disk is before it's opened.
#[derive(Clone, Copy, Drop)]
pub enum Found {
    Empty,
    Half(Generation),
}

/// Looks at the first or the second disk, and writes nothing.
pub fn look_at<D: Disk>(disk: &mut D, which: u8) -> Result<Found, MirrorFault>
    ensures ok { IsOk result → D.tells → MayBeHalf (D.view disk.old).gives }
    ensures found { IfOk result (λ found. D.tells → IsFoundOf found (D.view disk.old).gives) }
    ensures bad { (k place : ℕ) → result ≡ Err (fault.BadMirror k place) → (k ≡ which) × (D.tells → IsNoHalf (D.view disk.old).gives place) }
    ensures rests { D.tells → Rests (D.view disk.old) (D.view disk.new) }
    ensures counts { Counted (D.counts disk.old) (D.counts disk.new) (IsErrOf result fault.DiskFailed) (IsErrOf result fault.DiskStopped) }
{
    let len = match disk.len() {
        DiskLen::Len(len) => len,
        DiskLen::Failed => return Err(MirrorFault::DiskFailed),
        DiskLen::Stopped => return Err(MirrorFault::DiskStopped),
    };
    if len <= HEADER_BYTES {
        return Ok(Found::Empty);
    }
    let mut bytes = [0; READ_BYTES];
    done(disk.read_at(0, &mut bytes))?;
    match generation_in(&bytes) {
        Ok(generation) => Ok(Found::Half(generation)),
        Err(place) => Err(MirrorFault::BadMirror(which, place)),
    }
}

// The generation in a header, or the place that shows that there is none.
fn generation_in(bytes: &[u8; READ_BYTES]) -> Result<Generation, u64>
    ensures found { (g : Generation) → result ≡ Ok g → IsFound bytes.now g }
    ensures bad { (place : ℕ) → result ≡ Err place → IsBad bytes.now place }
{
    if &bytes[..8] != WORD.as_slice() {
        return Err(0);
    }
    let first = number_at(bytes, 512);
    let second = number_at(bytes, 1_024);
    let Some(found) = newest(first, second) else {
        return Err(512);
    };
    if found.number > MOST {
        return Err(1_024);
    }
    Ok(found)
}

// The greater of two numbers, the first one in a tie.
fn newest(first: Option<u64>, second: Option<u64>) -> Option<Generation>
    ensures none { result ≡ None → (first ≡ None) × (second ≡ None) }
    ensures newest { (g : Generation) → result ≡ Some g → IsNewest first second g }
{
    let (number, slot, is_open) = match (first, second) {
        (None, None) => return None,
        (Some(number), None) => (number, Slot::First, false),
        (None, Some(number)) => (number, Slot::Second, false),
        (Some(first), Some(second)) if first < second => (second, Slot::Second, true),
        (Some(number), Some(_)) => (number, Slot::First, true),
    };
    Some(Generation {
        number,
        slot,
        is_open,
    })
}

// The number of a slot whose gate is open.
fn number_at(bytes: &[u8; READ_BYTES], at: usize) -> Option<u64>
    requires { at + 9 ≤ 1033 }
    ensures { ShowsHeader bytes.now at result }
{
    if bytes[at] != OPEN {
        return None;
    }
    Some(number_behind(bytes, at + 1))
}

fn number_behind(bytes: &[u8; READ_BYTES], at: usize) -> u64
    requires { at + 8 ≤ 1033 }
    ensures { result ≡ from_be_bytes w64 (part bytes.now at 8) }
{
    let mut number = [0; 8];
    number.copy_from_slice(&bytes[at..at + 8]);
    u64::from_be_bytes(number)
}

/// Writes the header of an empty disk, with generation 1.
pub fn begin<D: Disk>(disk: &mut D) -> DiskAnswer
    ensures header { result ≡ said.Done → D.tells → HasHeader (D.view disk.new) }
    ensures content { result ≡ said.Done → D.tells → length (D.view disk.old).gives ≤ header_bytes → content (D.view disk.new).gives ≡ content (D.view disk.old).gives }
    ensures counts { Counted (D.counts disk.old) (D.counts disk.new) (result ≡ said.Failed) (result ≡ said.Stopped) }
{
    let mut bytes = [0; 4_096];
    bytes[..8].copy_from_slice(&WORD);
    let answer = disk.write_at(0, &bytes);
    if answer != DiskAnswer::Done {
        return answer;
    }
    let answer = disk.sync();
    if answer != DiskAnswer::Done {
        return answer;
    }
    write_shut(disk, Slot::First, 1)
}
