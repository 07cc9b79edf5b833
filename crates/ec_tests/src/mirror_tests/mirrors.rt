// Mirrors over disks in memory: what each disk holds, and what a fault, a stop or a power cut leaves.
use crate::mirror_tests::disks::{
    Two, WORK, begins, both_hold, new_disk, new_disks, save, stop_and_cut, work,
    writes_from_a_stop_on,
};
use ec_disk::{Choice, CrashDisk, Disk, DiskAnswer, MemDisk};
use ec_mirror::{Mirror, MirrorFault};
use std::alloc::Global;

// A disk of so many zero bytes.
fn zeros(alloc: Global, len: usize) -> Option<MemDisk> {
    let mut bytes = Vec::new(alloc);
    bytes.resize(len, 0).ok()?;
    let mut disk = new_disk(alloc, 0).ok()?;
    let _ = disk.write_at(0, &bytes);
    Some(disk)
}

// Why two disks are no mirror.
fn fault_of(two: &mut Two) -> Option<MirrorFault> {
    Mirror::open(&mut two.first, &mut two.second).err()
}

fn first_is_bad(alloc: Global) -> Option<MirrorFault> {
    let mut two = new_disks(alloc, 0, 0)?;
    two.first = zeros(alloc, 5_000)?;
    fault_of(&mut two)
}

fn second_is_bad(alloc: Global) -> Option<MirrorFault> {
    let mut two = new_disks(alloc, 0, 0)?;
    two.second = zeros(alloc, 5_000)?;
    fault_of(&mut two)
}

#[test]
fn zeros_are_no_mirror(rt: HostRuntime) {
    assert!(rt; first_is_bad(rt.alloc()) == Some(MirrorFault::BadMirror(1, 0)));
    assert!(rt; second_is_bad(rt.alloc()) == Some(MirrorFault::BadMirror(2, 0)));
}

// What came of the work over a mirror.
#[derive(Clone, Copy, Drop, PartialEq, Eq)]
enum Came {
    // The opening failed.
    Refused,
    // It's done, on both disks or on one.
    Alike,
    Apart,
    Else,
}

fn worked(two: &mut Two) -> Result<DiskAnswer, MirrorFault> {
    let mut mirror = Mirror::open(&mut two.first, &mut two.second)?;
    Ok(work(&mut mirror))
}

fn came_of(two: &mut Two) -> Came {
    match worked(two) {
        Err(MirrorFault::DiskFailed) => Came::Refused,
        Ok(DiskAnswer::Done) if both_hold(two, WORK) => Came::Alike,
        Ok(DiskAnswer::Done) => Came::Apart,
        _ => Came::Else,
    }
}

// Over new disks of which these calls fail.
fn run(alloc: Global, first_fails: u64, second_fails: u64) -> Came {
    match new_disks(alloc, first_fails, second_fails) {
        Some(mut two) => came_of(&mut two),
        None => Came::Else,
    }
}

#[test]
fn both_disks_are_alike(rt: HostRuntime) {
    assert!(rt; run(rt.alloc(), 0, 0) == Came::Alike);
}

// Each call of one disk fails once: the opening fails, or all is done. Both come, and more than once.
fn each_fails(alloc: Global, is_first: bool) -> bool {
    let mut refused: u64 = 0;
    let mut apart: u64 = 0;
    for k in 1..60 {
        let (first, second) = if is_first { (k, 0) } else { (0, k) };
        match run(alloc, first, second) {
            Came::Refused => refused = refused.saturating_add(1),
            Came::Apart => apart = apart.saturating_add(1),
            Came::Alike => {}
            Came::Else => return false,
        }
    }
    refused > 5 && apart > 0
}

#[test]
fn one_disk_fails(rt: HostRuntime) {
    assert!(rt; each_fails(rt.alloc(), true));
    assert!(rt; each_fails(rt.alloc(), false));
}

// A stop at a write or at a sync, and a power cut behind it.
fn cut_in(two: &mut Two, at_sync: bool, choice: Choice, left: &[u8; 5]) -> bool {
    match Mirror::open(&mut two.first, &mut two.second) {
        Ok(mut mirror) => stop_and_cut(&mut mirror, at_sync, choice, left),
        Err(_) => false,
    }
}

fn stops(alloc: Global, at_sync: bool, choice: Choice, left: &[u8; 5]) -> bool {
    match new_disks(alloc, 0, 0) {
        Some(mut two) => cut_in(&mut two, at_sync, choice, left) && both_hold(&mut two, left),
        None => false,
    }
}

#[test]
fn a_stop_is_cut(rt: HostRuntime) {
    assert!(rt; stops(rt.alloc(), false, Choice::Old, b"first"));
    assert!(rt; stops(rt.alloc(), false, Choice::New, b"later"));
    assert!(rt; stops(rt.alloc(), false, Choice::Torn, b"litsr"));
}

#[test]
fn a_stopped_sync_syncs_nothing(rt: HostRuntime) {
    assert!(rt; stops(rt.alloc(), true, Choice::Old, b"first"));
    assert!(rt; stops(rt.alloc(), true, Choice::New, b"later"));
    assert!(rt; stops(rt.alloc(), true, Choice::Torn, b"litsr"));
}

fn stop_over(two: &mut Two) -> Option<bool> {
    match Mirror::open(&mut two.first, &mut two.second) {
        Ok(mut mirror) => writes_from_a_stop_on(&mut mirror),
        Err(_) => None,
    }
}

// Each call of the first disk fails once: writes that stop are carried out, where they answer so.
fn stopped_writes_are_done(alloc: Global) -> bool {
    let mut done: u64 = 0;
    for k in 0..60 {
        let Some(mut two) = new_disks(alloc, k, 0) else {
            return false;
        };
        match stop_over(&mut two) {
            Some(true) => done = done.saturating_add(1),
            Some(false) => return false,
            None => {}
        }
    }
    done > 20
}

#[test]
fn a_write_that_stops_is_carried_out(rt: HostRuntime) {
    assert!(rt; stopped_writes_are_done(rt.alloc()));
}

// An opening stops at a call of one of the disks; both are cut, and opened again. Whether it stopped, where the content is there then.
fn reopens(two: &mut Two, is_first: bool, at: u64, choice: Choice) -> Option<bool> {
    if is_first {
        two.first.arm(at);
    } else {
        two.second.arm(at);
    }
    let stopped = match fault_of(two) {
        Some(MirrorFault::DiskStopped) => true,
        Some(_) => return None,
        None => false,
    };
    let _ = two.first.power_cut(choice);
    let _ = two.second.power_cut(choice);
    if fault_of(two).is_some() || !both_hold(two, WORK) {
        return None;
    }
    Some(stopped)
}

fn reopens_new(alloc: Global, is_first: bool, at: u64, choice: Choice) -> Option<bool> {
    let mut two = new_disks(alloc, 0, 0)?;
    if came_of(&mut two) != Came::Alike {
        return None;
    }
    reopens(&mut two, is_first, at, choice)
}

// Openings that stop keep the content, and more than five do.
fn openings_stop(alloc: Global, is_first: bool, choice: Choice) -> bool {
    let mut stopped: u64 = 0;
    for at in 1..20 {
        match reopens_new(alloc, is_first, at, choice) {
            Some(true) => stopped = stopped.saturating_add(1),
            Some(false) => {}
            None => return false,
        }
    }
    stopped > 5
}

#[test]
fn stopped_openings_keep_the_content(rt: HostRuntime) {
    assert!(rt; openings_stop(rt.alloc(), true, Choice::Old));
    assert!(rt; openings_stop(rt.alloc(), true, Choice::New));
    assert!(rt; openings_stop(rt.alloc(), true, Choice::Torn));
    assert!(rt; openings_stop(rt.alloc(), false, Choice::Old));
    assert!(rt; openings_stop(rt.alloc(), false, Choice::New));
    assert!(rt; openings_stop(rt.alloc(), false, Choice::Torn));
}

// Whether a power cut was done, where it left then what the choice says.
fn is_cut<D: CrashDisk>(disk: &mut D, choice: Choice, left: &[u8; 5]) -> Option<bool> {
    if save(disk, 0, b"first") != DiskAnswer::Done {
        return None;
    }
    if disk.write_at(0, b"later") != DiskAnswer::Done {
        return None;
    }
    if disk.power_cut(choice) != DiskAnswer::Done {
        return Some(false);
    }
    if begins(disk, left) { Some(true) } else { None }
}

fn cut_behind_fault(two: &mut Two, choice: Choice, left: &[u8; 5]) -> Option<bool> {
    match Mirror::open(&mut two.first, &mut two.second) {
        Ok(mut mirror) => is_cut(&mut mirror, choice, left),
        Err(_) => Some(false),
    }
}

fn cut_new(alloc: Global, first: u64, second: u64, choice: Choice, left: &[u8; 5]) -> Option<bool> {
    let mut two = new_disks(alloc, first, second)?;
    cut_behind_fault(&mut two, choice, left)
}

// Each call of one disk fails once: a power cut behind that leaves what its choice says, and more than twenty are done.
fn cuts_are_done(alloc: Global, is_first: bool, choice: Choice, left: &[u8; 5]) -> bool {
    let mut done: u64 = 0;
    for k in 1..60 {
        let (first, second) = if is_first { (k, 0) } else { (0, k) };
        match cut_new(alloc, first, second, choice, left) {
            Some(true) => done = done.saturating_add(1),
            Some(false) => {}
            None => return false,
        }
    }
    done > 20
}

#[test]
fn a_cut_behind_a_fault_leaves_what_its_choice_says(rt: HostRuntime) {
    assert!(rt; cuts_are_done(rt.alloc(), true, Choice::Old, b"first"));
    assert!(rt; cuts_are_done(rt.alloc(), true, Choice::New, b"later"));
    assert!(rt; cuts_are_done(rt.alloc(), true, Choice::Torn, b"litsr"));
    assert!(rt; cuts_are_done(rt.alloc(), false, Choice::Old, b"first"));
    assert!(rt; cuts_are_done(rt.alloc(), false, Choice::New, b"later"));
    assert!(rt; cuts_are_done(rt.alloc(), false, Choice::Torn, b"litsr"));
}

// Writes and syncs over a mirror. Whether that is done.
fn save_over(first: &mut MemDisk, second: &mut MemDisk, piece: &[u8; 5]) -> bool {
    match Mirror::open(first, second) {
        Ok(mut mirror) => save(&mut mirror, 0, piece) == DiskAnswer::Done,
        Err(_) => false,
    }
}

fn begins_over(first: &mut MemDisk, second: &mut MemDisk, want: &[u8; 5]) -> Option<bool> {
    match Mirror::open(first, second) {
        Ok(mut mirror) => Some(begins(&mut mirror, want)),
        Err(_) => None,
    }
}

// The first disk falls behind, and may fail then while it's made as the second one. Whether what is written behind that is tried, where it's there in the
// next opening.
fn falls_behind(two: &mut Two, third: &mut MemDisk) -> Option<bool> {
    if !save_over(&mut two.first, &mut two.second, b"early") {
        return Some(false);
    }
    if !save_over(&mut two.second, third, b"first") {
        return None;
    }
    if !save_over(&mut two.first, &mut two.second, b"later") {
        return Some(false);
    }
    match begins_over(&mut two.first, &mut two.second, b"later") {
        Some(true) => Some(true),
        Some(false) => None,
        None => Some(false),
    }
}

fn falls_behind_new(alloc: Global, fails: u64) -> Option<bool> {
    let mut two = new_disks(alloc, fails, 0)?;
    let mut third = new_disk(alloc, 0).ok()?;
    falls_behind(&mut two, &mut third)
}

// Each call of the first disk fails once.
fn later_stays(alloc: Global) -> bool {
    let mut tried: u64 = 0;
    for k in 1..60 {
        match falls_behind_new(alloc, k) {
            Some(true) => tried = tried.saturating_add(1),
            Some(false) => {}
            None => return false,
        }
    }
    tried > 20
}

#[test]
fn a_disk_that_fails_behind_the_other_one_doesnt_win(rt: HostRuntime) {
    assert!(rt; later_stays(rt.alloc()));
}
