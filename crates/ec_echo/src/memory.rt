// A script and a transcript in memory, which never fail.
ghost use Rattle.std.specs.Prelude.{◌≡◌, ◌≤◌, [], Some, length};
ghost use Rattle.ec_base.specs.OutsideCalls.{TookRight, GaveRight, TellsAlike};

use ec_base::{Gave, Sink, Source, Took};
use std::alloc::Global;

/// The bytes of a script that are still to be read.
#[derive(Drop)]
pub(crate) struct Script<'a> {
    pub(crate) ahead: &'a [u8],
}

impl Source for Script<'_> {
    ghost left = { λ s. Some s.ahead.now };

    ghost faults = { λ _. 0 };

    fn take(&mut self, into: &mut [u8]) -> Took
        requires { 1 ≤ length into.old }
        ensures answer { TookRight (Some self.old.ahead.now) (Some self.new.ahead.now) 0 0 into.new result }
        ensures counts { 0 ≤ 0 }
        ensures tells { TellsAlike (Some self.old.ahead.now) (Some self.new.ahead.now) }
    {
        if self.ahead.is_empty() {
            return Took::End;
        }
        let count = self.ahead.len().min(into.len());
        into[..count].copy_from_slice(&self.ahead[..count]);
        self.ahead = &self.ahead[count..];
        Took::Bytes(count)
    }
}

/// The bytes of a transcript that were written so far.
#[derive(Drop)]
pub(crate) struct Transcript {
    bytes: Vec<u8>,
}

impl Transcript {
    /// The empty one.
    pub(crate) fn new(alloc: Global) -> Self
        ensures { result.bytes.items ≡ [] }
    {
        Transcript {
            bytes: Vec::new(alloc),
        }
    }

    /// What was written.
    pub(crate) fn bytes(&self) -> &[u8]
        ensures { result.now ≡ self.now.bytes.items }
    {
        &self.bytes
    }
}

impl Sink for Transcript {
    ghost held = { λ s. Some s.bytes.items };

    ghost faults = { λ _. 0 };

    fn give(&mut self, piece: &[u8]) -> Gave
        requires { 1 ≤ length piece.now }
        ensures answer { GaveRight (Some self.old.bytes.items) (Some self.new.bytes.items) 0 0 piece.now result }
        ensures counts { 0 ≤ 0 }
        ensures tells { TellsAlike (Some self.old.bytes.items) (Some self.new.bytes.items) }
    {
        if self.bytes.extend_from_slice(piece).is_err() {
            return Gave::NoMemory;
        }
        Gave::Bytes(piece.len())
    }
}
