// Frames are made of bodies, and bodies are taken from a stream of frames that comes in any pieces.
ghost use Rattle.std.specs.Prelude.{◌≡◌, ◌+◌, ◌<◌, ◌≤◌, ℕ, List, [], ◌++◌, length, take, drop, vec_len, IfOk, IfErr, IsOk, OnOk, OnErr, IfSome, IfNone, MatchOption, min};
ghost use Rattle.ec_streams.specs.OfFrame.Frames.{header_bytes, max_shown_length, header, frame, IsBody, NotFramed, Begins, BeginsNone, NoNext, Held, taken_kept};

use crate::frame::fault::FrameFault;
use ec_base::NoMemory;
use std::alloc::Global;
use std::marker::Model;

/// A frame's body has at most this many bytes.
pub const MAX_BODY_BYTES: usize = 1_048_576;

const HEADER_BYTES: usize = 4;

/// The frame of a body: its length in four bytes, the highest first, and the body.
pub fn frame(alloc: Global, body: &[u8]) -> Result<Vec<u8>, FrameFault>
    ensures ok { IfOk result (λ bytes. (bytes.items ≡ frame body.now) × IsBody body.now) }
    ensures err { IfErr result (λ fault. NotFramed fault body.now) }
{
    if body.len() > MAX_BODY_BYTES {
        return Err(FrameFault::LongFrame(shown_length(body.len())));
    }
    let mut bytes = Vec::with_capacity(alloc, HEADER_BYTES + body.len())?;
    bytes.extend_from_slice(&header(body.len() as u32))?;
    bytes.extend_from_slice(body)?;
    Ok(bytes)
}

#[tactic(auto, unfolding(crate::specs::OfFrame::Frames::header))]
fn header(length: u32) -> [u8; 4]
    ensures { result ≡ header length }
{
    length.to_be_bytes()
}

fn shown_length(length: usize) -> u32
    ensures { result ≡ min length max_shown_length }
{
    length.min(u32::MAX as usize) as u32
}

/// A stream of frames that comes in pieces: the bytes that are fed and not yet taken.
#[derive(Drop)]
pub struct Frames {
    bytes: Vec<u8>,
    // how many of the bytes are taken
    start: usize,
}

impl Model for Frames {
    ghost Value = { Held };

    ghost view = { λ a. record { taken = a.start; left = drop a.start a.bytes.items } };

    ghost invariant = { λ a. a.start ≤ length a.bytes.items };
}

impl Frames {
    /// Holds no bytes.
    pub fn new(alloc: Global) -> Result<Frames, NoMemory>
        ensures ok { IfOk result (λ frames. frames ≡ record { taken = 0; left = [] }) }
        ensures succeeds { IsOk result }
    {
        Ok(Frames {
            bytes: Vec::new(alloc),
            start: 0,
        })
    }

    /// Adds a piece of the stream at the end. Of the bytes that are taken at most as many stay in memory as are left, and over all
    /// calls no more bytes are moved than came.
    pub fn feed(&mut self, piece: &[u8]) -> Result<(), NoMemory>
        ensures ok { OnOk result (self.new.left ≡ self.old.left ++ piece.now) }
        ensures err { OnErr result (self.new.left ≡ self.old.left) }
        ensures kept { self.new.taken ≡ taken_kept self.old }
        ensures bounded { self.new.taken ≤ length self.new.left }
    {
        if self.start >= self.bytes.len() - self.start {
            drop_front(&mut self.bytes, self.start);
            self.start = 0;
        }
        self.bytes.extend_from_slice(piece)?;
        Ok(())
    }

    /// Takes the body of the frame at the front. `None` takes no memory, and is answered exactly where the bytes
    /// begin no whole frame and no length that is too large.
    pub fn next(&mut self) -> Result<Option<Vec<u8>>, FrameFault>
        ensures some { IfOk result (λ next. IfSome next (λ body. Begins self.old.left body.items self.new.left)) }
        ensures taken { IfOk result (λ next. IfSome next (λ body. self.new.taken ≡ self.old.taken + header_bytes + vec_len body)) }
        ensures none { IfOk result (λ next. IfNone next (BeginsNone self.old.left × (self.new ≡ self.old))) }
        ensures err { IfErr result (λ fault. NoNext fault self.old.left × (self.new ≡ self.old)) }
    {
        let body = first_body(*self.bytes.allocator(), &self.bytes[self.start..])?;
        if let Some(body) = &body {
            self.start += HEADER_BYTES + body.len();
        }
        Ok(body)
    }
}

// The body of the frame at the front.
fn first_body(alloc: Global, bytes: &[u8]) -> Result<Option<Vec<u8>>, FrameFault>
    ensures some { IfOk result (λ first. IfSome first (λ body. (header_bytes + vec_len body ≤ length bytes.now) × Begins bytes.now body.items (drop (header_bytes + vec_len body) bytes.now))) }
    ensures none { IfOk result (λ first. IfNone first (BeginsNone bytes.now)) }
    ensures err { IfErr result (λ fault. NoNext fault bytes.now) }
{
    let Some(length) = length_at(bytes) else {
        return Ok(None);
    };
    let body_length = length as usize;
    if body_length > MAX_BODY_BYTES {
        return Err(FrameFault::LongFrame(length));
    }
    let rest = &bytes[HEADER_BYTES..];
    if rest.len() < body_length {
        return Ok(None);
    }
    let body = Vec::from_slice(alloc, &rest[..body_length])?;
    Ok(Some(body))
}

#[tactic(auto, unfolding(crate::specs::OfFrame::Frames::header))]
fn length_at(bytes: &[u8]) -> Option<u32>
    ensures { MatchOption result (length bytes.now < header_bytes) (λ n. (header_bytes ≤ length bytes.now) × (take header_bytes bytes.now ≡ header n)) }
{
    match bytes {
        [a, b, c, d, ..] => Some(u32::from_be_bytes([*a, *b, *c, *d])),
        _ => None,
    }
}

fn drop_front(bytes: &mut Vec<u8>, count: usize)
    requires { count ≤ vec_len bytes.old }
    ensures { bytes.new.items ≡ drop count bytes.old.items }
{
    let left = bytes.len() - count;
    bytes.copy_within(count.., 0);
    bytes.truncate(left);
}
