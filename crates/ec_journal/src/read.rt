// Reading the records of a journal.
ghost use Rattle.std.specs.Prelude.{◌≡◌, ◌≢◌, ◌⊎◌, ◌+◌, ◌^◌, ◌<◌, ◌≤◌, ℕ, Bool, true, false, List, [], length, IfOk, OnOk, IfSome, IfNone, IsErrOf};
ghost use Rattle.std.specs.Int.{w32, from_be_bytes};
ghost use Rattle.ec_disk.specs.Disk.{byte, part};
ghost use Rattle.ec_disk.specs.Effects.{Rests, Counted, Called};
ghost use Rattle.ec_journal.specs.Records.{open_gate, around_bytes, length_bytes, HasBodies, RunsPast};
ghost use Rattle.ec_journal.specs.Journal.{IsFound};
ghost use Rattle.ec_journal.specs.declared.fault.JournalFault.TheVariants as fault;

use crate::device::read_part;
use crate::fault::JournalFault;
use ec_base::{List, NoMemory};
use ec_disk::Disk;
use std::alloc::Global;

/// The byte of a gate that is open.
pub const OPEN: u8 = b'O';

pub const LENGTH_BYTES: usize = 4;

// A gate and a length stand in front of a body.
pub const HEAD_BYTES: usize = 1 + LENGTH_BYTES;

/// What a record needs beside its body: a gate, a length and the next gate.
pub const AROUND_BYTES: usize = HEAD_BYTES + 1;

/// The records at the front of a journal.
#[derive(Drop)]
pub struct Found {
    /// The bodies of those whose gates are open.
    pub bodies: List<List<u8>>,
    /// Where the gate behind them stands, from the journal's first byte on.
    pub end: u64,
    /// Whether this gate is closed. Else it is open over a record that runs past the journal.
    pub is_whole: bool,
}

/// Reads the records of the journal of `size` bytes from `at` on, by one call of the disk.
/// `Bad` and `NoRoom` never come.
pub fn read_records<D: Disk>(
    alloc: Global,
    disk: &mut D,
    at: u64,
    size: u64,
) -> Result<Found, JournalFault>
    requires size { 1 ≤ size }
    requires inside { D.tells → at + size ≤ length (D.view disk.old).gives }
    ensures found { IfOk result (λ found. D.tells → IsFound (D.view disk.old).gives at size found) }
    ensures end { IfOk result (λ found. found.end < size) }
    ensures calls { OnOk result (Called 1 (D.counts disk.old) (D.counts disk.new)) }
    ensures rests { D.tells → Rests (D.view disk.old) (D.view disk.new) }
    ensures counts { Counted (D.counts disk.old) (D.counts disk.new) (IsErrOf result fault.DiskFailed) (IsErrOf result fault.DiskStopped) }
    ensures no_room { (need free : ℕ) → IsErrOf result (fault.NoRoom need free) → ⊥ }
    ensures no_bad { (place : ℕ) → IsErrOf result (fault.Bad place) → ⊥ }
{
    let bytes = read_part(alloc, disk, at, size)?;
    let found = records_in(alloc, bytes.as_slice())?;
    Ok(found)
}

// The length of the body behind an open gate, where its record and the next gate are inside.
fn body_len(bytes: &[u8], gate: usize) -> Option<usize>
    requires { gate < length bytes.now }
    ensures some { IfSome result (λ len. (len < 2 ^ 32) × (gate + around_bytes + len ≤ length bytes.now) × (len ≡ from_be_bytes w32 (part bytes.now (gate + 1) length_bytes))) }
    ensures none { IfNone result ((length bytes.now < gate + around_bytes) ⊎ (length bytes.now < gate + around_bytes + from_be_bytes w32 (part bytes.now (gate + 1) length_bytes))) }
{
    if bytes.len() - gate < AROUND_BYTES {
        return None;
    }
    let len = number_at(bytes, gate + 1) as usize;
    if bytes.len() - gate - AROUND_BYTES < len {
        None
    } else {
        Some(len)
    }
}

fn records_in(alloc: Global, bytes: &[u8]) -> Result<Found, NoMemory>
    requires { 1 ≤ length bytes.now }
    ensures found { IfOk result (λ found. IsFound bytes.now 0 (length bytes.now) found) }
    ensures end { IfOk result (λ found. found.end < length bytes.now) }
{
    let mut bodies = Vec::new(alloc);
    let mut end = 0;
    'records: while bytes[end] == OPEN {
        let Some(len) = body_len(bytes, end) else {
            return Ok(Found {
                bodies: List::of(bodies),
                end: end as u64,
                is_whole: false,
            });
        };
        let start = end + HEAD_BYTES;
        let body = bytes[start..start + len].to_vec(alloc)?;
        bodies.push(List::of(body))?;
        end = start + len;
    }
    Ok(Found {
        bodies: List::of(bodies),
        end: end as u64,
        is_whole: true,
    })
}

fn number_at(bytes: &[u8], at: usize) -> u32
    requires { at + length_bytes ≤ length bytes.now }
    ensures { result ≡ from_be_bytes w32 (part bytes.now at length_bytes) }
{
    let mut number = [0; LENGTH_BYTES];
    number.copy_from_slice(&bytes[at..at + LENGTH_BYTES]);
    u32::from_be_bytes(number)
}
