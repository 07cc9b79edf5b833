//! A disk that is laid out, and checkpoints that stop.

use ec_disk::{Choice, CrashDisk, Disk, DiskAnswer, DiskLen, MemDisk};
use ec_journal::layout::{
    Head, SELECT_AT, Side, free_slots, prepare, slot_at, write_checkpoint, write_head,
};
use ec_journal::{JournalFault, read_part};
use std::alloc::Global;

// Slot 0 holds `root`, and the even table is `table 1`.
fn lay_out(alloc: Global, disk: &mut MemDisk) -> Result<(), JournalFault> {
    let mut pieces = Vec::new(alloc);
    pieces.push((0, b"root".to_vec(alloc)?))?;
    if prepare(disk, Side::Even, pieces.as_slice(), b"table 1") != DiskAnswer::Done {
        return Err(JournalFault::DiskFailed);
    }
    write_head(disk, 32)
}

// A disk that is laid out so, by eight calls.
fn laid_out(alloc: Global) -> Result<MemDisk, JournalFault> {
    let mut disk = MemDisk::new(alloc, Vec::new(alloc))?;
    match lay_out(alloc, &mut disk) {
        Ok(()) => Ok(disk),
        Err(fault) => {
            drop(disk);
            Err(fault)
        }
    }
}

fn bytes_at(
    alloc: Global,
    disk: &mut MemDisk,
    at: u64,
    size: u64,
) -> Result<Vec<u8>, JournalFault> {
    match disk.len() {
        DiskLen::Len(len) if size <= len && at <= len - size => read_part(alloc, disk, at, size),
        _ => Err(JournalFault::DiskFailed),
    }
}

fn has(alloc: Global, disk: &mut MemDisk, at: u64, want: &[u8]) -> bool {
    match bytes_at(alloc, disk, at, want.len() as u64) {
        Ok(bytes) => bytes.as_slice() == want,
        Err(_) => false,
    }
}

const HEAD: [u8; 16] = *b"ECHOFS1\n\0\0\0 \0\x01\0\0";

#[test]
fn head_stands_in_front(rt: HostRuntime) {
    let mut disk = laid_out(rt.alloc()).expect(&rt, "disk");
    let is_there = has(rt.alloc(), &mut disk, 0, &HEAD) && disk.steps().len() == 8;
    drop(disk);
    let want = Head {
        has_first_word: true,
        max_objects: 32,
        side: Side::Even,
        has_form: true,
    };
    assert!(rt; is_there && Head::read(&HEAD) == want);
}

#[test]
fn free_slots_are_the_others(rt: HostRuntime) {
    let free = free_slots(rt.alloc(), 6, &[4, 0, 1]).expect(&rt, "free");
    assert!(rt; free.as_slice() == [2, 3, 5].as_slice());
}

// A checkpoint of slot 1 on the odd side.
fn write_leaf(alloc: Global, disk: &mut MemDisk) -> Result<DiskAnswer, JournalFault> {
    let mut pieces = Vec::new(alloc);
    pieces.push((1, b"leaf".to_vec(alloc)?))?;
    Ok(write_checkpoint(disk, Side::Odd, pieces.as_slice(), b"table 2"))
}

fn side_of(alloc: Global, disk: &mut MemDisk) -> Result<Side, JournalFault> {
    let select = bytes_at(alloc, disk, SELECT_AT, 1)?;
    match select.as_slice() {
        [byte] => Ok(Side::picked_by(*byte)),
        _ => Err(JournalFault::NoMemory),
    }
}

// Whether what the side names is there.
fn is_whole(alloc: Global, disk: &mut MemDisk, side: Side) -> bool {
    let is_named = match side {
        Side::Even => has(alloc, disk, side.table_at(), b"table 1"),
        Side::Odd => {
            has(alloc, disk, slot_at(1), b"leaf") && has(alloc, disk, side.table_at(), b"table 2")
        }
    };
    is_named && has(alloc, disk, slot_at(0), b"root")
}

// A checkpoint that stops in one of its calls, and a cut: the side that is selected, where what that names is there.
fn cut(alloc: Global, disk: &mut MemDisk, call: u64, choice: Choice) -> Result<Side, JournalFault> {
    disk.arm(call);
    let is_done = write_leaf(alloc, disk)? == DiskAnswer::Done;
    if is_done != (call == 7) || disk.power_cut(choice) != DiskAnswer::Done {
        return Err(JournalFault::DiskFailed);
    }
    let side = side_of(alloc, disk)?;
    if is_whole(alloc, disk, side) {
        Ok(side)
    } else {
        Err(JournalFault::NoMemory)
    }
}

fn left(alloc: Global, call: u64, choice: Choice) -> Result<Side, JournalFault> {
    let mut disk = laid_out(alloc)?;
    let side = cut(alloc, &mut disk, call, choice);
    drop(disk);
    side
}

#[test]
fn stop_in_each_call_of_a_checkpoint_leaves_one_side(rt: HostRuntime) {
    // The call that stops, and the sides that are left by an old cut and by a new or torn one. The calls are a slot, the table, the gate, a
    // sync, the select byte, a sync.
    for (call, old, new) in [
        (1, Side::Even, Side::Even),
        (4, Side::Even, Side::Even),
        (5, Side::Even, Side::Odd),
        (6, Side::Even, Side::Odd),
        (7, Side::Odd, Side::Odd),
    ] {
        for (choice, want) in [(Choice::Old, old), (Choice::New, new), (Choice::Torn, new)] {
            assert!(rt; left(rt.alloc(), call, choice) == Ok(want));
        }
    }
}
