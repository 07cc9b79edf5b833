//! Journals on a disk that stops, fails and is cut.

use ec_base::List;
use ec_disk::{Choice, CrashDisk, Disk, DiskAnswer, DiskLen, MemDisk};
use ec_journal::{Journal, JournalFault, write_synced};
use std::alloc::Global;

// A synced disk of 20 zero bytes, made by its calls 1 and 2, whose calls of these numbers fail.
fn zeros(alloc: Global, fails: &[u64]) -> Result<MemDisk, JournalFault> {
    let mut disk = MemDisk::new(alloc, fails.to_vec(alloc)?)?;
    write_synced(&mut disk, 0, &[0; 20])?;
    Ok(disk)
}

// How many bodies are on the disk. Each has to be `abcd`.
fn bodies_on(alloc: Global, disk: &mut MemDisk) -> Result<usize, JournalFault> {
    match disk.len() {
        DiskLen::Len(len) if len >= 20 => {
            let (_, bodies) = Journal::open(alloc, disk, 0, 20)?;
            count(bodies.as_slice())
        }
        _ => Err(JournalFault::DiskFailed),
    }
}

fn count(bodies: &[List<u8>]) -> Result<usize, JournalFault> {
    if bodies
        .iter()
        .all(|body| body.as_slice() == b"abcd".as_slice())
    {
        Ok(bodies.len())
    } else {
        Err(JournalFault::NoMemory)
    }
}

fn append(alloc: Global, disk: &mut MemDisk) -> Result<(), JournalFault> {
    let mut journal = Journal::new(0, 20, 0);
    journal.append(alloc, disk, b"abcd")
}

// An append that stops in one of the calls, and a cut: the bodies that are left.
fn cut(
    alloc: Global,
    disk: &mut MemDisk,
    calls: u64,
    choice: Choice,
) -> Result<usize, JournalFault> {
    disk.arm(calls);
    let is_done = append(alloc, disk).is_ok();
    if is_done != (calls == 5) || disk.power_cut(choice) != DiskAnswer::Done {
        return Err(JournalFault::DiskFailed);
    }
    bodies_on(alloc, disk)
}

// An opening where the length of the record doesn't fit into the journal.
fn open_long(alloc: Global, disk: &mut MemDisk) -> Result<usize, JournalFault> {
    append(alloc, disk)?;
    if disk.write_at(9, b"O\0\0\0\x06") != DiskAnswer::Done {
        return Err(JournalFault::DiskFailed);
    }
    bodies_on(alloc, disk)
}

// Two appends, of which the second one has no room: the steps of the disk behind them.
fn append_two(alloc: Global, disk: &mut MemDisk) -> Result<usize, JournalFault> {
    let mut journal = Journal::new(0, 20, 0);
    journal.append(alloc, disk, b"abcd")?;
    if journal.append(alloc, disk, &[7; 14]) != Err(JournalFault::NoRoom(20, 11)) {
        return Err(JournalFault::NoMemory);
    }
    Ok(disk.steps().len())
}

// What is done with a disk of zeros.
#[derive(Clone, Copy)]
enum Work {
    Append,
    AppendTwo,
    Open,
    OpenStopped,
    OpenLong,
    Cut(u64, Choice),
}

fn does(alloc: Global, disk: &mut MemDisk, work: Work) -> Result<usize, JournalFault> {
    match work {
        Work::Append => {
            append(alloc, disk)?;
            Ok(1)
        }
        Work::AppendTwo => append_two(alloc, disk),
        Work::Open => bodies_on(alloc, disk),
        Work::OpenStopped => {
            disk.arm(1);
            bodies_on(alloc, disk)
        }
        Work::OpenLong => open_long(alloc, disk),
        Work::Cut(calls, choice) => cut(alloc, disk, calls, choice),
    }
}

// What it comes to, where the call of this number fails, and the bodies that are left.
fn found(
    alloc: Global,
    number: u64,
    work: Work,
) -> (Result<usize, JournalFault>, Result<usize, JournalFault>) {
    match zeros(alloc, &[number]) {
        Ok(mut disk) => {
            let found = does(alloc, &mut disk, work);
            let bodies = bodies_on(alloc, &mut disk);
            drop(disk);
            (found, bodies)
        }
        Err(fault) => (Err(fault), Err(fault)),
    }
}

// A journal that is full keeps what it has, and a record past its end is bad.
#[test]
fn full_journals_and_long_records(rt: HostRuntime) {
    assert!(rt; found(rt.alloc(), 0, Work::AppendTwo) == (Ok(6), Ok(1)));
    let bad = Err(JournalFault::Bad(9));
    assert!(rt; found(rt.alloc(), 0, Work::OpenLong) == (bad, bad));
}

#[test]
fn stop_in_each_call_leaves_all_or_nothing(rt: HostRuntime) {
    // The call that stops, and the bodies that are left by an old and by a new or torn cut.
    for (calls, old, new) in [(1, 0, 0), (2, 0, 0), (3, 0, 1), (4, 0, 1), (5, 1, 1)] {
        for (choice, want) in [(Choice::Old, old), (Choice::New, new), (Choice::Torn, new)] {
            let (found, _) = found(rt.alloc(), 0, Work::Cut(calls, choice));
            assert!(rt; found == Ok(want));
        }
    }
}

// The four calls of an append have the numbers 3 to 6. For an opening the question for the length has the number 3, and its one call the number 4.
#[test]
fn fault_of_the_disk_is_shown(rt: HostRuntime) {
    let failed = Err(JournalFault::DiskFailed);
    for (number, work, want) in [
        (3, Work::Append, failed),
        (4, Work::Append, failed),
        (5, Work::Append, failed),
        (6, Work::Append, failed),
        (7, Work::Append, Ok(1)),
        (4, Work::Open, failed),
        (5, Work::Open, Ok(0)),
        (0, Work::OpenStopped, Err(JournalFault::DiskStopped)),
    ] {
        let (found, _) = found(rt.alloc(), number, work);
        assert!(rt; found == want);
    }
}
