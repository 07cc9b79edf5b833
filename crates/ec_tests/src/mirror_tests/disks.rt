// Two disks in memory, and what is done with a disk, be it a mirror or not.
use ec_base::NoMemory;
use ec_disk::{Choice, CrashDisk, Disk, DiskAnswer, DiskLen, MemDisk};
use std::alloc::Global;

#[derive(Drop)]
pub(crate) struct Two {
    pub(crate) first: MemDisk,
    pub(crate) second: MemDisk,
}

/// New disks, of which each fails at this call.
pub(crate) fn new_disks(alloc: Global, first_fails: u64, second_fails: u64) -> Option<Two> {
    let first = new_disk(alloc, first_fails).ok()?;
    let second = new_disk(alloc, second_fails).ok()?;
    Some(Two { first, second })
}

pub(crate) fn new_disk(alloc: Global, fails: u64) -> Result<MemDisk, NoMemory> {
    MemDisk::new(alloc, Vec::from_slice(alloc, &[fails])?)
}

// Reads where the bytes are there.
fn read<D: Disk>(disk: &mut D, at: u64, into: &mut [u8]) -> DiskAnswer {
    match disk.len() {
        DiskLen::Len(len) if at <= len && into.len() as u64 <= len - at => disk.read_at(at, into),
        _ => DiskAnswer::NoMemory,
    }
}

/// Whether a disk gives these bytes first.
pub(crate) fn begins<D: Disk>(disk: &mut D, want: &[u8; 5]) -> bool {
    let mut bytes = [0; 5];
    read(disk, 0, &mut bytes) == DiskAnswer::Done && &bytes == want
}

// Whether the content behind a header is just this.
fn holds(disk: &mut MemDisk, want: &[u8]) -> bool {
    let mut bytes = [0; 24];
    let count = want.len();
    if count > 24 || disk.len() != DiskLen::Len(4_096 + count as u64) {
        return false;
    }
    read(disk, 4_096, &mut bytes[..count]) == DiskAnswer::Done && &bytes[..count] == want
}

pub(crate) fn both_hold(two: &mut Two, want: &[u8]) -> bool {
    holds(&mut two.first, want) && holds(&mut two.second, want)
}

/// What a disk holds on which `work` was done.
pub(crate) const WORK: &[u8; 24] = b"hello, mirror\0\0\0\0\0\0\0more";

/// Writes and syncs twice, with a gap, and reads.
pub(crate) fn work<D: CrashDisk>(disk: &mut D) -> DiskAnswer {
    match save(disk, 0, b"hello, mirror") {
        DiskAnswer::Done => {}
        other => return other,
    }
    match save(disk, 20, b"more") {
        DiskAnswer::Done => {}
        other => return other,
    }
    let mut bytes = [0; 24];
    match read(disk, 0, &mut bytes) {
        DiskAnswer::Done if &bytes == WORK => DiskAnswer::Done,
        DiskAnswer::Done => DiskAnswer::NoMemory,
        other => other,
    }
}

/// Writes and syncs.
pub(crate) fn save<D: Disk>(disk: &mut D, at: u64, piece: &[u8]) -> DiskAnswer {
    match disk.write_at(at, piece) {
        DiskAnswer::Done => disk.sync(),
        other => other,
    }
}

/// Writes behind a sync, and stops then, at that write or at a sync behind it. Whether a power cut leaves these bytes.
pub(crate) fn stop_and_cut<D: CrashDisk>(
    disk: &mut D,
    at_sync: bool,
    choice: Choice,
    left: &[u8; 5],
) -> bool {
    let _ = save(disk, 0, b"first");
    let stopped = if at_sync {
        let _ = disk.write_at(0, b"later");
        disk.arm(1);
        disk.sync()
    } else {
        disk.arm(1);
        disk.write_at(0, b"later")
    };
    stopped == DiskAnswer::Stopped
        && disk.power_cut(choice) == DiskAnswer::Done
        && begins(disk, left)
}

/// Writes behind a sync, twice from a stop on. Whether both writes stopped, where a power cut is done that leaves both.
pub(crate) fn writes_from_a_stop_on<D: CrashDisk>(disk: &mut D) -> Option<bool> {
    let _ = save(disk, 0, b"first");
    disk.arm(1);
    if disk.write_at(0, b"la") != DiskAnswer::Stopped {
        return None;
    }
    if disk.write_at(2, b"ter") != DiskAnswer::Stopped {
        return None;
    }
    if disk.power_cut(Choice::New) != DiskAnswer::Done {
        return None;
    }
    Some(begins(disk, b"later"))
}
