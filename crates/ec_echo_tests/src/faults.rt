// Sources, sinks, disks and nets that fail.
use crate::runs::{Fails, NONE, NetTypes, echoed, echoed_on, new_disk, tells};
use ec_disk::{Disk, DiskLen};
use ec_link::Around;
use std::io::Eprint;

const CALLS: &[u8] = b"A create /f\nA write /f 0 hi\nA read /f 0 9\n";

const ANSWERS: [&[u8]; 5] = [
    b"",
    b"1 A create /f -> waits\n",
    b"1 A create /f -> waits\n1 A create /f -> ok op 1\n",
    b"1 A create /f -> waits\n1 A create /f -> ok op 1\n2 A write /f 0 hi -> ok op 2\n",
    b"1 A create /f -> waits\n1 A create /f -> ok op 1\n2 A write /f 0 hi -> ok op 2\n3 A read /f 0 9 -> data 2 hi\n",
];

fn lines_in(text: &[u8]) -> Option<usize> {
    ANSWERS.iter().position(|front| text == *front)
}

// The status, and how many of the lines that the calls show were written.
fn answered<R: Around + Eprint>(rt: &R, fails: Fails) -> Option<(u8, usize)> {
    match echoed(rt, "drill 32", CALLS, fails) {
        Ok(echo) => Some((echo.status, lines_in(&echo.text)?)),
        Err(_) => None,
    }
}

// The first call that tells something else where it fails, from 1: behind `last` calls none does.
fn first_other<R: Around + Eprint>(rt: &R, last: u64) -> Option<u64> {
    for call in 1..=last {
        let fails = Fails { sink: call, ..NONE };
        if answered(rt, fails) != Some((5, call as usize - 1)) {
            return Some(call);
        }
    }
    None
}

// Each call of the sink fails once: the lines before it stand.
#[test]
fn each_write_fails_once(rt: HostRuntime) {
    drop::<NetTypes>((None, None));
    assert!(rt; first_other(&rt, 4).is_none() && answered(&rt, NONE) == Some((0, 4)));
}

// How many calls of the disk there are: where one fails, whole lines stand, and its fault is told.
fn calls_that_fail<R: Around + Eprint>(rt: &R) -> Option<u64> {
    for call in 1..200 {
        match answered(rt, Fails { disk: call, ..NONE })? {
            (6, _) => {}
            (0, 4) => return Some(call),
            _ => return None,
        }
    }
    None
}

#[test]
fn each_call_of_the_disk_fails_once(rt: HostRuntime) {
    drop::<NetTypes>((None, None));
    assert!(rt; calls_that_fail(&rt).is_some_and(|calls| calls > 10));
}

// The first calls of the source, the sink, the disk and the net fail, or the source's second one, behind all bytes.
const SOURCE: Fails = Fails { source: 1, ..NONE };

const LATE_SOURCE: Fails = Fails { source: 2, ..NONE };

const SINK: Fails = Fails { sink: 1, ..NONE };

const DISK: Fails = Fails { disk: 1, ..NONE };

const NET: Fails = Fails { net: 1, ..NONE };

const BOTH: Fails = Fails { disk: 1, ..NET };

const LEGAL: &[u8] = b"1 A create /f -> waits\n1 A create /f -> ok op 1\n";

const LANES: &[u8] = b"1 create /f\n1 write /f 0 hi\n2 stat /\n";

// A line of no lane.
const NO_LANE: &[u8] = b"1 stat /\n9 stat /\n";

const PLAIN: &[u8] = b"create /v/f\nstat /v\n";

// A line that is no call.
const NO_CALL: &[u8] = b"stat /v\n9 stat /v\n";

// The words, the input, what fails, the status and what is written.
type Row<'a> = (&'a str, &'a [u8], Fails, u8, &'a [u8]);

// A check uses no disk, a soak and a server no source, and mounts no disk. A server's disk is opened before its door, and mounts read their
// script before they call.
#[test]
fn tells_faults(rt: HostRuntime) {
    drop::<NetTypes>((None, None));
    let rows: [Row; 22] = [
        ("drill", CALLS, SOURCE, 4, b""),
        ("drill", CALLS, LATE_SOURCE, 4, b""),
        ("drill", CALLS, SINK, 5, b""),
        ("drill", CALLS, DISK, 6, b""),
        ("check", LEGAL, SOURCE, 4, b""),
        ("check", LEGAL, SINK, 5, b""),
        ("check", LEGAL, DISK, 0, b"legal\n"),
        ("soak 7", b"", SINK, 5, b""),
        ("soak 7", b"", DISK, 6, b""),
        ("serve here 1", b"", NET, 8, b""),
        ("serve here 1", b"", BOTH, 6, b""),
        ("mount here A", LANES, NONE, 8, b""),
        ("mount here A", LANES, SOURCE, 4, b""),
        ("mount here A", LANES, LATE_SOURCE, 4, b""),
        ("mount here A", NO_LANE, NONE, 3, b"bad 2 col 1\n"),
        ("mount here A", NO_LANE, SINK, 5, b""),
        ("mounts A /v=here", PLAIN, NONE, 8, b""),
        ("mounts A /v=here", PLAIN, SOURCE, 4, b""),
        ("mounts A /v=here", PLAIN, LATE_SOURCE, 4, b""),
        ("mounts A /v=here", NO_CALL, NONE, 3, b"bad 2 col 1\n"),
        ("mounts A /v=here", NO_CALL, SINK, 5, b""),
        ("mounts A /v=x=y", PLAIN, NONE, 8, b""),
    ];
    for (words, input, fails, status, text) in rows {
        assert!(rt; tells(&rt, words, input, fails, status, text));
    }
}

// The status where the source fails, and the length of the disk behind it.
fn left<R: Around + Eprint>(rt: &R) -> Option<(u8, DiskLen)> {
    let mut disk = new_disk(rt.alloc(), 0).ok()?;
    let echo = echoed_on(rt, "drill", CALLS, SOURCE, &mut disk);
    let len = disk.len();
    drop(disk);
    match echo {
        Ok(echo) => Some((echo.status, len)),
        Err(_) => None,
    }
}

// A source that fails leaves the disk as it was.
#[test]
fn leaves_the_disk(rt: HostRuntime) {
    drop::<NetTypes>((None, None));
    assert!(rt; left(&rt) == Some((4, DiskLen::Len(0))));
}
