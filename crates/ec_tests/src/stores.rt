// Stores over disks in memory, and the records that the tests commit, by their bytes.
ghost use Rattle.std.specs.Prelude.{◌≡◌, [], true, IfOk};
ghost use Rattle.ec_disk.specs.Memory.{steps_of};
ghost use Rattle.ec_durable.specs.SoundRecords.{is_sound_record};

use ec_base::NoMemory;
use ec_codes::CodeFault;
use ec_disk::{Disk, DiskAnswer, MemDisk};
use ec_durable::{Record, decode};
use ec_store::{Store, StoreFault};
use std::alloc::{AllocError, Global};

/// A store, and the disk that it's on.
#[derive(Drop)]
pub(crate) struct OnDisk {
    pub(crate) store: Store,
    pub(crate) disk: MemDisk,
}

// A session of clerk A, 16 ids for it, and the files 2 and 3.

const OPEN: &[u8] = b"\x02\0\0\0\0\0\0\0\0\x01\0\0\0\0\0\0\0\0\0\0\0\x01";

const IDS: &[u8] = b"\x04\0\0\0\0\0\0\0\0\x01\0\0\0\0\0\0\0\x02";

const MAKES: &[u8] = b"\x01\0\0\0\0\0\0\0\0\x01\0\0\0\0\0\0\0\x01\x02\
\0\0\0\0\0\0\0\x01\x01\0\0\0\x01\0\0\0\x02\x01\x012\
\0\0\0\0\0\0\0\x02\x01\0\0\0\x01\0\0\0\x03\x01\x013";

pub(crate) fn empty(alloc: Global) -> Result<MemDisk, NoMemory>
    ensures { IfOk result (λ disk. steps_of disk ≡ []) }
{
    MemDisk::new(alloc, Vec::new(alloc))
}

pub(crate) fn formatted(alloc: Global) -> Result<OnDisk, StoreFault> {
    let mut disk = empty(alloc)?;
    let store = Store::format(alloc, &mut disk, 32)?;
    Ok(OnDisk { store, disk })
}

fn record(alloc: Global, bytes: &[u8]) -> Result<Record, CodeFault>
    ensures { IfOk result (λ change. is_sound_record change ≡ true) }
{
    decode(alloc, bytes)
}

pub(crate) fn commit(alloc: Global, on: &mut OnDisk, bytes: &[u8]) -> Result<(), StoreFault> {
    match record(alloc, bytes) {
        Ok(change) => on.store.commit(&mut on.disk, &change),
        Err(_) => Err(StoreFault::NoMemory),
    }
}

// Batch `number`, from 2 on: 64 writes of 4,096 bytes of this number to file 2.
fn batch(alloc: Global, number: u8) -> Result<Vec<u8>, AllocError> {
    let mut bytes = Vec::new(alloc);
    bytes.extend_from_slice(b"\x01\0\0\0\0\0\0\0\0\x01\0\0\0\0\0\0\0")?;
    bytes.extend_from_slice(&[number, 64])?;
    for _ in 0..64 {
        bytes.extend_from_slice(b"\0\0\0\0\0\0\0\x03\x04\0\0\0\x02\0\0\0\0\0\x10\0")?;
        bytes.extend_from_slice(&[number; 4096])?;
    }
    Ok(bytes)
}

pub(crate) fn fill(alloc: Global, on: &mut OnDisk, number: u8) -> Result<(), StoreFault> {
    let bytes = batch(alloc, number)?;
    commit(alloc, on, &bytes)
}

/// Commits the batches from one number up to another: whether each was.
pub(crate) fn fill_all(alloc: Global, on: &mut OnDisk, first: u8, last: u8) -> bool {
    for number in first..=last {
        if fill(alloc, on, number).is_err() {
            return false;
        }
    }
    true
}

fn make_files(alloc: Global, on: &mut OnDisk) -> bool {
    for bytes in [OPEN, IDS, MAKES] {
        if commit(alloc, on, bytes).is_err() {
            return false;
        }
    }
    true
}

/// A store with the files 2 and 3, where the batches from 2 up to this one were committed.
pub(crate) fn filled(alloc: Global, last: u8) -> Result<OnDisk, StoreFault> {
    let mut on = formatted(alloc)?;
    if make_files(alloc, &mut on) && fill_all(alloc, &mut on, 2, last) {
        Ok(on)
    } else {
        Err(StoreFault::NoMemory)
    }
}

// A disk of version 1 whose volume has the root alone: its head, the even side's table and slot 0.
const OLD: [(u64, &[u8]); 3] = [
    (0, b"ECHOFS1\n\0\0\0\x20\0\x01\0\0"),
    (
        2_101_248,
        b"\0\0\0\x30\0\0\0\x02\0\0\0\0\0\0\0\x01\0\0\0\0\0\0\0\0\
\0\0\0\0\0\0\0\0\0\0\0\0\0\0\0\0\0\0\0\x01\0\0\0\x01\0\0\0\0",
    ),
    (4_329_472, b"\0\0\0\x01\x02\x01\xED\0\0\0\0\0\0\0\0\0"),
];

pub(crate) fn old(alloc: Global) -> Result<MemDisk, StoreFault> {
    let mut disk = empty(alloc)?;
    if is_laid(&mut disk) {
        Ok(disk)
    } else {
        drop(disk);
        Err(StoreFault::DiskFailed)
    }
}

fn is_laid(disk: &mut MemDisk) -> bool {
    for (at, bytes) in OLD {
        if disk.write_at(at, bytes) != DiskAnswer::Done {
            return false;
        }
    }
    disk.sync() == DiskAnswer::Done
}
