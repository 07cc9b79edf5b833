//! The frame of a message, and the same fed byte by byte.

use ec_base::NoMemory;
use ec_streams::frame::{FrameFault, Frames, frame};
use std::alloc::Global;

// The length, a kind byte and three numbers of 1.
const FRAME: [u8; 29] = [
    0, 0, 0, 0x19, 0x44, 0, 0, 0, 0, 0, 0, 0, 1, 0, 0, 0, 0, 0, 0, 0, 1, 0, 0, 0, 0, 0, 0, 0, 1,
];

#[test]
fn one_frame(rt: HostRuntime) {
    let is_framed = match frame(rt.alloc(), &FRAME[4..]) {
        Ok(bytes) => bytes.as_slice() == FRAME.as_slice(),
        Err(_) => false,
    };
    assert!(rt; is_framed);
}

// Whether no body is whole behind any of the first bytes.
fn waits(frames: &mut Frames, bytes: &[u8]) -> Result<bool, NoMemory> {
    for byte in bytes {
        frames.feed(&[*byte])?;
        if !matches!(frames.next(), Ok(None)) {
            return Ok(false);
        }
    }
    Ok(true)
}

fn gives(frames: &mut Frames, bytes: &[u8], body: &[u8]) -> Result<bool, NoMemory> {
    frames.feed(bytes)?;
    Ok(match frames.next() {
        Ok(Some(found)) => found.as_slice() == body,
        _ => false,
    })
}

fn is_long(frames: &mut Frames) -> bool {
    matches!(frames.next(), Err(FrameFault::LongFrame(1_048_577)))
}

// A frame byte by byte, and then one that is too long, which is told again and again.
fn goes(frames: &mut Frames) -> Result<bool, NoMemory> {
    let is_given = waits(frames, &FRAME[..28])? && gives(frames, &FRAME[28..], &FRAME[4..])?;
    frames.feed(&[0x00, 0x10, 0x00, 0x01])?;
    Ok(is_given && is_long(frames) && is_long(frames))
}

#[test]
fn byte_by_byte(rt: HostRuntime) {
    let mut frames = Frames::new(rt.alloc()).expect(&rt, "memory");
    let done = goes(&mut frames);
    drop(frames);
    assert!(rt; done == Ok(true));
}
