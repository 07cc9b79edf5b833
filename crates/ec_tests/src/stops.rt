// Disks that stop in each call of a format, a commit, a checkpoint, an opening and an upgrade, and are opened again.

use crate::stores::{empty, fill, filled, old};
use ec_disk::{Choice, CrashDisk, DiskAnswer, MemDisk};
use ec_store::{Store, StoreFault};
use ec_volume::Image;
use std::alloc::Global;

const CHOICES: [Choice; 3] = [Choice::Old, Choice::New, Choice::Torn];

#[derive(Clone, Copy)]
enum Step {
    Format,
    // Of batch `number`, behind the ones before it.
    Commit(u8),
    Open,
    Upgrade,
}

// What a disk shows when it's opened: the batch that file 2 is of, 0 where it's of none, or that it's bad.
type Shown = Result<u8, StoreFault>;

// A step that stops in each of its `calls` calls.
#[derive(Clone, Copy)]
struct Row {
    step: Step,
    calls: u64,
    // From this call on it's `after` that a new power cut leaves, and a torn one too where the write is at an even place.
    first: u64,
    is_even: bool,
    before: Shown,
    after: Shown,
}

// The first word is written by the seventh call.
const FORMAT: Row = Row {
    step: Step::Format,
    calls: 8,
    first: 7,
    is_even: false,
    before: Err(StoreFault::BadDisk(0)),
    after: Ok(0),
};

// The piece, a sync, the gate, a sync.
const COMMIT: Row = Row {
    step: Step::Commit(2),
    calls: 4,
    first: 3,
    is_even: true,
    before: Ok(0),
    after: Ok(2),
};

// Batch 9 finds no room: three slots, the table and the gate, a sync, the select byte, a sync, and the calls of each commit.
const CHECKPOINT: Row = Row {
    step: Step::Commit(9),
    calls: 12,
    first: 11,
    is_even: true,
    before: Ok(8),
    after: Ok(9),
};

// A sync; the head, the table, a slot and the journal are read.
const OPEN: Row = Row {
    step: Step::Open,
    calls: 5,
    first: 1,
    is_even: true,
    before: Ok(2),
    after: Ok(2),
};

// The calls of an opening; a slot, the table and the gate, a sync, the select byte, a sync.
const UPGRADE: Row = Row {
    step: Step::Upgrade,
    calls: 11,
    first: 1,
    is_even: true,
    before: Ok(0),
    after: Ok(0),
};

fn stop_format(alloc: Global, calls: u64) -> Result<MemDisk, StoreFault> {
    let mut disk = empty(alloc)?;
    disk.arm(calls);
    match Store::format(alloc, &mut disk, 32) {
        Err(StoreFault::DiskStopped) => Ok(disk),
        _ => Err(StoreFault::DiskFailed),
    }
}

fn stop_commit(alloc: Global, number: u8, calls: u64) -> Result<MemDisk, StoreFault> {
    let mut on = filled(alloc, number.saturating_sub(1))?;
    on.disk.arm(calls);
    match fill(alloc, &mut on, number) {
        Err(StoreFault::DiskStopped) => Ok(on.disk),
        _ => Err(StoreFault::DiskFailed),
    }
}

fn stop_open(alloc: Global, disk: MemDisk, calls: u64) -> Result<MemDisk, StoreFault> {
    let mut disk = disk;
    disk.arm(calls);
    match Store::open(alloc, &mut disk) {
        Err(StoreFault::DiskStopped) => Ok(disk),
        _ => Err(StoreFault::DiskFailed),
    }
}

fn stop(alloc: Global, step: Step, calls: u64) -> Result<MemDisk, StoreFault> {
    match step {
        Step::Format => stop_format(alloc, calls),
        Step::Commit(number) => stop_commit(alloc, number, calls),
        Step::Open => stop_open(alloc, filled(alloc, 2)?.disk, calls),
        Step::Upgrade => stop_open(alloc, old(alloc)?, calls),
    }
}

fn batch_in(store: &Store) -> u8 {
    match store.view().volume.at(1) {
        Some((_, Image::File { bytes, .. })) => bytes.as_slice().first().copied().unwrap_or(0),
        _ => 0,
    }
}

fn shown(alloc: Global, step: Step, calls: u64, choice: Choice) -> Shown {
    let mut disk = stop(alloc, step, calls)?;
    let shown = cut_and_open(alloc, &mut disk, choice);
    drop(disk);
    shown
}

fn cut_and_open(alloc: Global, disk: &mut MemDisk, choice: Choice) -> Shown {
    if disk.power_cut(choice) != DiskAnswer::Done {
        return Err(StoreFault::DiskFailed);
    }
    let store = Store::open(alloc, disk)?;
    let batch = batch_in(&store);
    drop(store);
    Ok(batch)
}

// The first call and choice that leave something else; call 0 where there are more calls.
fn first_other(alloc: Global, row: &Row) -> Option<(u64, Choice, Shown)> {
    if stop(alloc, row.step, row.calls.saturating_add(1)).is_ok() {
        return Some((0, Choice::New, row.before));
    }
    for calls in 1..=row.calls {
        for choice in CHOICES {
            let is_left = choice == Choice::New || choice == Choice::Torn && row.is_even;
            let want = if is_left && row.first <= calls {
                row.after
            } else {
                row.before
            };
            let shown = shown(alloc, row.step, calls, choice);
            if shown != want {
                return Some((calls, choice, shown));
            }
        }
    }
    None
}

#[test]
fn format_stops(rt: HostRuntime) {
    assert!(rt; first_other(rt.alloc(), &FORMAT) == None);
}

#[test]
fn commit_stops(rt: HostRuntime) {
    assert!(rt; first_other(rt.alloc(), &COMMIT) == None);
}

#[test]
fn checkpoint_stops(rt: HostRuntime) {
    assert!(rt; first_other(rt.alloc(), &CHECKPOINT) == None);
}

#[test]
fn opening_stops(rt: HostRuntime) {
    assert!(rt; first_other(rt.alloc(), &OPEN) == None);
}

#[test]
fn upgrade_stops(rt: HostRuntime) {
    assert!(rt; first_other(rt.alloc(), &UPGRADE) == None);
}
