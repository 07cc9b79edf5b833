//! Records by their bytes, and the state as they change it.

use ec_base::{Age, ClerkId, List, Name, ObjId, OpNo, SessionNo};
use ec_codes::CodeFault;
use ec_durable::{Durable, Record, RecordFault, decode, encode};
use ec_volume::{Kind, Update};
use std::alloc::Global;
use std::test::Fail;

// The code of a batch that makes a file in the root.
const BATCH: [u8; 39] = [
    1, 0, 0, 0, 0, 0, 0, 0, 0, 1, 0, 0, 0, 0, 0, 0, 0, 2, 1, 0, 0, 0, 0, 0, 0, 0, 3, 1, 0, 0, 0, 1,
    0, 0, 0, 2, 1, 1, 102,
];

const OPEN: [u8; 22] = [
    2, 1, 0, 0, 0, 0, 0, 0, 0, 1, 0, 0, 0, 2, 0, 0, 0, 0, 0, 0, 0, 3,
];

const END: [u8; 10] = [3, 15, 0, 0, 0, 0, 0, 0, 0, 4];

const IDS: [u8; 18] = [4, 0, 0, 0, 0, 0, 0, 0, 0, 1, 0, 0, 0, 5, 0, 0, 0, 18];

const EPOCH: [u8; 9] = [5, 0, 0, 0, 0, 0, 0, 0, 6];

// A record without its operations, clerk and ids.
#[derive(Clone, Copy, Debug, PartialEq)]
enum Short {
    Batch(u64, u64),
    Open(Age, u64),
    End(u64),
    Ids(u64, u32),
    Epoch(u64),
}

fn without_lists(record: &Record) -> Short {
    match record {
        Record::Batch(_, session, number, _) => Short::Batch(session.0, *number),
        Record::Open(_, age, session) => Short::Open(*age, session.0),
        Record::End(_, session) => Short::End(session.0),
        Record::Ids(_, session, grants, _) => Short::Ids(session.0, *grants),
        Record::Epoch(epoch) => Short::Epoch(*epoch),
    }
}

// What is read from the bytes, where that is written so again.
fn read(alloc: Global, code: &[u8]) -> Option<Short> {
    let record = decode(alloc, code).ok()?;
    let again = encode(alloc, &record).ok()?;
    if again.as_slice() == code {
        Some(without_lists(&record))
    } else {
        None
    }
}

// Each record is read and written again.
#[test]
fn each_record(rt: HostRuntime) {
    let rows: [(&[u8], Short); 5] = [
        (&BATCH, Short::Batch(1, 2)),
        (&OPEN, Short::Open(Age { boot: 1, round: 2 }, 3)),
        (&END, Short::End(4)),
        (&IDS, Short::Ids(1, 5)),
        (&EPOCH, Short::Epoch(6)),
    ];
    for (code, want) in rows {
        assert!(rt; read(rt.alloc(), code) == Some(want));
    }
}

fn refusal(alloc: Global, bytes: &[u8]) -> Option<CodeFault> {
    decode(alloc, bytes).err()
}

// Each refusal once.
#[test]
fn refused_records(rt: HostRuntime) {
    let rows: [(&[u8], CodeFault); 9] = [
        (&[], CodeFault::Short(0)),
        (&[0], CodeFault::Field(0)),
        (&[6], CodeFault::Field(0)),
        (&[3, 16], CodeFault::Field(1)),
        (&EPOCH[..8], CodeFault::Short(8)),
        (&[5, 0, 0, 0, 0, 0, 0, 0, 6, 0], CodeFault::Field(9)),
        (
            &[4, 0, 0, 0, 0, 0, 0, 0, 0, 1, 0, 0, 0, 5, 0, 0, 0, 0],
            CodeFault::Field(14),
        ),
        (
            &[1, 0, 0, 0, 0, 0, 0, 0, 0, 1, 0, 0, 0, 0, 0, 0, 0, 2, 0],
            CodeFault::Field(18),
        ),
        (
            &[1, 0, 0, 0, 0, 0, 0, 0, 0, 1, 0, 0, 0, 0, 0, 0, 0, 2, 65],
            CodeFault::Field(18),
        ),
    ];
    for (bytes, fault) in rows {
        assert!(rt; refusal(rt.alloc(), bytes) == Some(fault));
    }
}

#[test]
fn an_id_that_isnt_reserved_isnt_made(rt: HostRuntime) -> Result<(), Fail> {
    let alloc = rt.alloc();
    let clerk = ClerkId::new(0).ok_or("a clerk")?;
    let first = ObjId::new(2).ok_or("an id")?;
    let other = ObjId::new(99).ok_or("an id")?;
    let mut state = Durable::formatted(alloc, 32)?;
    let open = Record::Open(clerk, Age { boot: 1, round: 0 }, SessionNo(1));
    assert!(rt; state.step(&open) == Ok(()));
    assert!(rt; state.step(&Record::Ids(clerk, SessionNo(1), 0, first)) == Ok(()));
    assert!(rt; state.sessions.reserved() == 16);
    let mut ops = Vec::new(alloc);
    ops.push((
        OpNo(1),
        Update::Make {
            dir: ObjId::root(),
            name: Name::read(alloc, b"f").ok().ok_or("a name")?,
            obj: other,
            kind: Kind::File,
        },
    ))?;
    let batch = Record::Batch(clerk, SessionNo(1), 1, List::of(ops));
    assert!(rt; state.step(&batch) == Err(RecordFault::NotReserved(OpNo(1), other)));
    assert!(rt; state.step(&Record::Epoch(1)) == Ok(()));
    assert!(rt; state.step(&Record::End(clerk, SessionNo(1))) == Ok(()));
    assert!(rt; state.step(&Record::End(clerk, SessionNo(1))) == Err(RecordFault::NoSession));
    Ok(())
}
