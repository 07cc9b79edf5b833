//! Picks, batch by batch, and a full log.

use ec_base::{List, Name, NoMemory, ObjId, OpNo};
use ec_log::{Asked, Log, LogFault, MAX_UNDURABLE, Pick};
use ec_volume::{Kind, Update};
use std::alloc::Global;

// A call on a log, and what it answers. What is asked for is the file of a letter, the root or all.
#[derive(Clone, Copy)]
enum Step {
    // Creates of the files of one letter, up to this one.
    Creates(u8, u8),
    // So many writes to the file of one letter, all but the first one inside.
    Writes(u8, u32),
    Stamps(usize),
    IsFull,
    // A pick that begins this batch, of so many operations, the last of which is this one.
    Picks(u8, u64, usize, u64),
    // Each batch of so many, picked and kept.
    KeepsAll(u8, u64),
    Waits(u8, u64),
    Settles(u8),
    Sends(u64, usize),
    Keeps(u64),
    Ends,
    HasFloor(u64),
}

use Step::*;

fn file(letter: u8) -> ObjId {
    ObjId::new(u32::from(letter)).unwrap_or(ObjId::root())
}

const ALL: u8 = 0;

const ROOT: u8 = b'/';

fn asked(on: u8) -> Asked {
    match on {
        ALL => Asked::All,
        ROOT => Asked::Object(ObjId::root()),
        letter => Asked::Object(file(letter)),
    }
}

fn create(alloc: Global, letter: u8) -> Option<Update> {
    Some(Update::Make {
        dir: ObjId::root(),
        name: Name::read(alloc, &[letter]).ok()?,
        obj: file(letter),
        kind: Kind::File,
    })
}

fn write(alloc: Global, letter: u8, inside: bool) -> Option<Update> {
    Some(Update::Put {
        obj: file(letter),
        at: 0,
        bytes: List::of(Vec::from_slice(alloc, b"x").ok()?),
        inside,
    })
}

fn creates(alloc: Global, log: &mut Log, first: u8, last: u8) -> Option<bool> {
    for letter in first..=last {
        log.issue(create(alloc, letter)?).ok()?;
    }
    Some(true)
}

fn writes(alloc: Global, log: &mut Log, letter: u8, count: u32) -> Option<bool> {
    for place in 0..count {
        log.issue(write(alloc, letter, place > 0)?).ok()?;
    }
    Some(true)
}

fn stamp() -> Update {
    Update::Stamp {
        obj: ObjId::root(),
        stamp: 0,
    }
}

fn stamps(log: &mut Log, count: usize) -> Option<bool> {
    for _ in 0..count {
        log.issue(stamp()).ok()?;
    }
    Some(true)
}

fn is_batch(pick: &Pick, no: u64, len: usize, last: u64) -> bool {
    match pick {
        Pick::Batch(batch, ops) => {
            *batch == no
                && ops.as_slice().len() == len
                && ops.as_slice().last() == Some(&OpNo(last))
        }
        _ => false,
    }
}

fn picks(log: &mut Log, asked: Asked, no: u64, len: usize, last: u64) -> Option<bool> {
    let pick = log.pick(asked).ok()?;
    Some(is_batch(&pick, no, len, last))
}

fn keeps_all(log: &mut Log, asked: Asked, batches: u64) -> Option<bool> {
    for batch in 1..=batches {
        if !picks(log, asked, batch, 64, batch.saturating_mul(64))? {
            return Some(false);
        }
        log.kept(batch);
    }
    Some(true)
}

fn is_behind(log: &mut Log, asked: Asked, batch: u64) -> Option<bool> {
    let pick = log.pick(asked).ok()?;
    Some(matches!(pick, Pick::Behind(no) if no == batch))
}

fn is_settled(log: &mut Log, asked: Asked) -> Option<bool> {
    let pick = log.pick(asked).ok()?;
    Some(matches!(pick, Pick::Settled))
}

fn sends(log: &Log, no: u64, len: usize) -> Option<bool> {
    let sent = log.batch(no).ok()??;
    Some(sent.as_slice().len() == len)
}

// Whether the call answers so. None says that something else was answered, or that there is no memory.
fn answers(alloc: Global, log: &mut Log, step: Step) -> Option<bool> {
    match step {
        Creates(first, last) => creates(alloc, log, first, last),
        Writes(letter, count) => writes(alloc, log, letter, count),
        Stamps(count) => stamps(log, count),
        IsFull => Some(log.issue(stamp()) == Err(LogFault::Full)),
        Picks(on, no, len, last) => picks(log, asked(on), no, len, last),
        KeepsAll(on, batches) => keeps_all(log, asked(on), batches),
        Waits(on, batch) => is_behind(log, asked(on), batch),
        Settles(on) => is_settled(log, asked(on)),
        Sends(no, len) => sends(log, no, len),
        Keeps(no) => keeps(log, no),
        Ends => ends(log),
        HasFloor(floor) => Some(log.floor() == floor),
    }
}

fn keeps(log: &mut Log, no: u64) -> Option<bool> {
    log.kept(no);
    Some(true)
}

fn ends(log: &mut Log) -> Option<bool> {
    log.end();
    Some(true)
}

fn find_wrong(alloc: Global, log: &mut Log, steps: &[Step]) -> Option<usize> {
    for (place, step) in steps.iter().enumerate() {
        if answers(alloc, log, *step) != Some(true) {
            return Some(place);
        }
    }
    None
}

// The place of the first call that answers otherwise, over a new log.
fn first_wrong(alloc: Global, steps: &[Step]) -> Result<Option<usize>, NoMemory> {
    let mut log = Log::new(alloc)?;
    Ok(find_wrong(alloc, &mut log, steps))
}

#[test]
fn calls_on_logs(rt: HostRuntime) {
    let rows: [&[Step]; 4] = [
        // Creates in one directory travel in two batches.
        &[
            Creates(b'0', b'p'),
            Picks(ALL, 1, 64, 64),
            Sends(1, 64),
            Waits(ALL, 1),
            Keeps(1),
            HasFloor(65),
            Picks(ROOT, 2, 1, 65),
            Keeps(2),
            Settles(ALL),
        ],
        // So many operations fill a log.
        &[Stamps(MAX_UNDURABLE), IsFull, Ends, HasFloor(65_537)],
        // What the closure of an object needs: its create, and the create before it in the same directory. Writes beside it stay.
        &[
            Creates(b'a', b'a'),
            Writes(b'a', 30_000),
            Creates(b'b', b'b'),
            Picks(b'b', 1, 2, 30_002),
            Waits(b'a', 1),
            Keeps(1),
            HasFloor(2),
            Settles(b'b'),
        ],
        // Operations on one object travel batch by batch: each pick walks over the first ones alone.
        &[Stamps(MAX_UNDURABLE), KeepsAll(ROOT, 1_024), Settles(ALL)],
    ];
    for steps in rows {
        assert!(rt; first_wrong(rt.alloc(), steps) == Ok(None));
    }
}
