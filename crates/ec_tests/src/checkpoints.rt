// What calls on a store do to its disk.

use crate::stores::{commit, fill_all, filled, formatted, old};
use ec_disk::{Disk, DiskAnswer, DiskLen, MemDisk, Step};
use ec_durable::{Durable, RecordFault};
use ec_journal::layout::Side;
use ec_store::{Store, StoreFault};
use std::alloc::Global;

fn is_formatted(state: &Durable) -> bool {
    state.epoch == 0 && state.next_id == 2 && state.max_objects == 32 && state.volume.live() == 1
}

// An end of a session in a formatted store: its answer, where the state stays the formatted one, whose table was written, and the steps of the
// disk, of which a format has eight.
fn end(alloc: Global) -> Result<(Result<(), StoreFault>, bool, usize), StoreFault> {
    let mut on = formatted(alloc)?;
    let answer = commit(alloc, &mut on, b"\x03\0\0\0\0\0\0\0\0\x01");
    let is_formatted = is_formatted(on.store.view()) && ends_so(&on.disk, Side::Even, TABLE);
    let steps = on.disk.steps().len();
    drop(on);
    Ok((answer, is_formatted, steps))
}

#[test]
fn end_without_a_session_is_refused(rt: HostRuntime) {
    let refused = Err(StoreFault::Refused(RecordFault::NoSession));
    assert!(rt; end(rt.alloc()) == Ok((refused, true, 8)));
}

// Whether what was last written to this table ends so: in the count of the live objects, their ids and their slots.
fn ends_so(disk: &MemDisk, side: Side, pairs: &[u8]) -> bool {
    let at = side.table_at();
    let mut ends_so = false;
    for step in disk.steps() {
        if let Step::Write(place, bytes) = step {
            if *place == at {
                ends_so = bytes.as_slice().ends_with(pairs);
            }
        }
    }
    ends_so
}

// Of a formatted volume, in version 2: the root in slot 0.
const TABLE: &[u8] = b"\x02\0\0\0\x30\0\0\0\x02\0\0\0\0\0\0\0\x01\0\0\0\0\0\0\0\0\
\0\0\0\0\0\0\0\0\0\0\0\0\0\0\0\0\0\0\0\x01\0\0\0\x01\0\0\0\0";

const FIRST: &[u8] = b"\0\0\0\x03\0\0\0\x01\0\0\0\x01\0\0\0\x02\0\0\0\x02\0\0\0\x03\0\0\0\x03";

const SECOND: &[u8] = b"\0\0\0\x03\0\0\0\x01\0\0\0\x01\0\0\0\x02\0\0\0\0\0\0\0\x03\0\0\0\x03";

// Seven batches fill a journal. The checkpoint in the last one's commit writes slot 0, the table and the gate, syncs, writes the select byte
// and syncs.
fn tables(alloc: Global) -> Result<(bool, usize, bool), StoreFault> {
    let mut on = filled(alloc, 9)?;
    let is_first = ends_so(&on.disk, Side::Odd, FIRST);
    let are_filled = fill_all(alloc, &mut on, 10, 15);
    let before = on.disk.steps().len();
    if are_filled && fill_all(alloc, &mut on, 16, 16) {
        let steps = on.disk.steps().len().saturating_sub(before);
        Ok((is_first, steps, ends_so(&on.disk, Side::Even, SECOND)))
    } else {
        Err(StoreFault::NoMemory)
    }
}

#[test]
fn checkpoints_write_what_changed(rt: HostRuntime) {
    assert!(rt; tables(rt.alloc()) == Ok((true, 10, true)));
}

// The same where the store is opened again in front of the last one of these batches: how many steps the opening and the checkpoint take. The
// root and file 3, which no record of the journal names, keep their slots.
fn tables_behind_an_opening(alloc: Global) -> Result<(usize, usize, bool), StoreFault> {
    let mut on = filled(alloc, 15)?;
    let before = on.disk.steps().len();
    on.store = Store::open(alloc, &mut on.disk)?;
    let opened = on.disk.steps().len();
    if fill_all(alloc, &mut on, 16, 16) {
        let steps = on.disk.steps().len().saturating_sub(opened);
        let is_second = ends_so(&on.disk, Side::Even, SECOND);
        Ok((opened.saturating_sub(before), steps, is_second))
    } else {
        Err(StoreFault::NoMemory)
    }
}

#[test]
fn openings_keep_slots_and_write_nothing(rt: HostRuntime) {
    assert!(rt; tables_behind_an_opening(rt.alloc()) == Ok((1, 10, true)));
}

fn select_byte(disk: &mut MemDisk) -> Option<u8> {
    let mut head = [0; 16];
    match disk.len() {
        DiskLen::Len(len) if 16 <= len => {}
        _ => return None,
    }
    match disk.read_at(0, &mut head) {
        DiskAnswer::Done => Some(head[12]),
        _ => None,
    }
}

fn opens_formatted(alloc: Global, disk: &mut MemDisk) -> Result<bool, StoreFault> {
    let store = Store::open(alloc, disk)?;
    let is_formatted = is_formatted(store.view());
    drop(store);
    Ok(is_formatted)
}

// What an opening shows of a disk of version 1, and the select byte behind it.
fn upgraded(alloc: Global) -> Result<(bool, Option<u8>), StoreFault> {
    let mut disk = old(alloc)?;
    let is_formatted = opens_formatted(alloc, &mut disk);
    let byte = select_byte(&mut disk);
    drop(disk);
    Ok((is_formatted?, byte))
}

#[test]
fn old_disk_is_opened(rt: HostRuntime) {
    assert!(rt; upgraded(rt.alloc()) == Ok((true, Some(1))));
}
