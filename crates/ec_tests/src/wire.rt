//! Messages by their bytes, and bytes that are no message.

use ec_base::{Age, ClerkId, NoMemory, SessionNo};
use ec_streams::frame::frame;
use ec_wire::{Msg, WireFault, decode, encode};
use std::alloc::Global;

// Hello of clerk A, age 1, 0.
const HELLO: [u8; 14] = [8, 0, 0, 0, 0, 0, 0, 0, 0, 1, 0, 0, 0, 0];

const KEPT: [u8; 25] = [
    68, 0, 0, 0, 0, 0, 0, 0, 1, 0, 0, 0, 0, 0, 0, 0, 1, 0, 0, 0, 0, 0, 0, 0, 1,
];

fn writes(alloc: Global, msg: &Msg, code: &[u8]) -> bool {
    if !msg.sound() {
        return false;
    }
    match encode(alloc, msg) {
        Ok(bytes) => bytes.as_slice() == code,
        Err(_) => false,
    }
}

fn is_kept(alloc: Global, bytes: &[u8]) -> bool {
    matches!(decode(alloc, bytes), Ok(Msg::Kept(SessionNo(1), 1, 1)))
}

// Whether the message is framed so: its length in four bytes, and itself.
fn is_framed(alloc: Global, code: &[u8], head: &[u8]) -> Result<bool, NoMemory> {
    let Ok(framed) = frame(alloc, code) else {
        return Err(NoMemory);
    };
    Ok(framed.starts_with(head) && &framed[head.len()..] == code)
}

#[test]
fn messages(rt: HostRuntime) {
    let clerk = ClerkId::new(0).expect(&rt, "a clerk");
    let hello = Msg::Hello(clerk, Age { boot: 1, round: 0 });
    let is_hello = writes(rt.alloc(), &hello, &HELLO);
    drop(hello);
    let kept = Msg::Kept(SessionNo(1), 1, 1);
    let is_written = writes(rt.alloc(), &kept, &KEPT);
    drop(kept);
    assert!(rt; is_hello && is_written && is_kept(rt.alloc(), &KEPT));
    assert!(rt; is_framed(rt.alloc(), &KEPT, &[0, 0, 0, 25]) == Ok(true));
}

// What a message is refused for: its kind, so many bytes 1, and these behind.
fn refused(alloc: Global, kind: u8, ones: u8, rest: &[u8]) -> Result<Option<WireFault>, NoMemory> {
    let mut bytes = Vec::new(alloc);
    bytes.push(kind)?;
    bytes.resize(1 + usize::from(ones), 1)?;
    bytes.extend_from_slice(rest)?;
    Ok(decode(alloc, &bytes).err())
}

// Unknown kinds, lengths, an unknown clerk, objects 0, modes that a token can't have, counts out of their range, numbers and ids that don't
// rise, ids past the last one, and an image that is none.
#[test]
fn refused_messages(rt: HostRuntime) {
    let rows: [(u8, u8, &[u8], WireFault); 22] = [
        (0, 0, b"", WireFault::Kind(0)),
        (1, 0, b"", WireFault::Kind(1)),
        (9, 0, b"", WireFault::Kind(9)),
        (74, 0, b"", WireFault::Kind(74)),
        (7, 15, b"", WireFault::Short(16)),
        (7, 17, b"", WireFault::Trailing(17)),
        (68, 24, b"\0", WireFault::Trailing(25)),
        (8, 0, b"\x10", WireFault::Field(1)),
        (2, 16, b"\0\0\0\0", WireFault::Field(17)),
        (2, 20, b"\0", WireFault::Field(21)),
        (3, 28, b"\x02", WireFault::Field(29)),
        (4, 24, b"\0", WireFault::Field(25)),
        (4, 24, b"\x41", WireFault::Field(25)),
        (4, 24, b"\x01\0\0\0\0\0\0\0\x01\x0b", WireFault::Field(34)),
        (
            4,
            24,
            b"\x02\0\0\0\0\0\0\0\x01\x06\0\0\0\x02\0\0\0\0\0\0\0\0\0\x01",
            WireFault::Field(41),
        ),
        (6, 16, b"\0\0\0\x01\0\0\0\x01\0", WireFault::Field(25)),
        (
            6,
            16,
            b"\0\0\0\x02\0\0\0\x01\x01\0\0\0\x01",
            WireFault::Field(26),
        ),
        (66, 28, b"\0", WireFault::Field(29)),
        (66, 29, b"\x03", WireFault::Field(30)),
        (67, 28, b"\x02", WireFault::Field(29)),
        (69, 28, b"\0\0\0\0", WireFault::Field(29)),
        (69, 28, b"\xff\xff\xff\xf0", WireFault::Field(29)),
    ];
    for (kind, ones, rest, fault) in rows {
        assert!(rt; refused(rt.alloc(), kind, ones, rest) == Ok(Some(fault)));
    }
    assert!(rt; decode(rt.alloc(), b"").err() == Some(WireFault::Short(0)));
}
