// Whether a transcript is legal.
ghost use Rattle.std.specs.Prelude.{◌≤◌, IfOk, IfErr};
ghost use Rattle.ec_check.specs.Checked.{IsChecked, IsRefused};

use crate::judged::judge_bytes;
use ec_base::Source;
use ec_history::Rule;
use ec_legal::transcript::{MAX_TRANSCRIPT_BYTES, ReadFault as Unread};
use ec_streams::{ReadFault, read_whole};
use std::alloc::Global;
use std::thread::Threads;
use thiserror::Error;

/// What a transcript is.
#[derive(Clone, Copy, Debug, Drop, PartialEq, Eq)]
pub enum Checked {
    Legal,
    /// This line, from 1, is the first at fault, and this is the first rule that it breaks.
    Illegal(u32, Rule),
}

/// Why a transcript was not judged.
#[derive(Clone, Copy, Debug, Drop, PartialEq, Eq, Error)]
pub enum CheckFault {
    /// This line, from 1, is outside the grammar. The column, from 1, is that of the first byte of
    /// the first word that doesn't fit, or just behind the line where a word is missing.
    #[error("no such line: line {0}, column {1}")]
    BadLine(u32, u32),
    #[error("the source failed")]
    SourceFailed,
    /// There are too many bytes: the limit and one more.
    #[error("more than {0} bytes")]
    Limit(u64),
    #[error("out of memory")]
    NoMemory,
}

/// Reads a transcript that began on a formatted volume, with at most so many objects, to its end,
/// and judges it. First the bytes are counted; a line outside the grammar comes before one that may
/// not follow those above it, and that before an entry that breaks a rule.
pub fn check_transcript<R: Threads + Sync, S: Source>(
    rt: &R,
    alloc: Global,
    source: &mut S,
    max_objects: u32,
) -> Result<Checked, CheckFault>
    ensures ok { IfOk result (λ checked. IsChecked (S.left source.old) (S.left source.new) max_objects checked) }
    ensures err { IfErr result (λ fault. IsRefused (S.left source.old) (S.left source.new) (S.faults source.old) (S.faults source.new) fault) }
    ensures later { S.faults source.old ≤ S.faults source.new }
{
    let bytes = match read_whole(alloc, source, MAX_TRANSCRIPT_BYTES) {
        Ok(bytes) => bytes,
        Err(ReadFault::TooMany) => {
            return Err(CheckFault::Limit(MAX_TRANSCRIPT_BYTES as u64 + 1));
        }
        Err(ReadFault::Failed) => return Err(CheckFault::SourceFailed),
        Err(ReadFault::NoMemory) => return Err(CheckFault::NoMemory),
    };
    match judge_bytes(rt, alloc, &bytes, max_objects) {
        Ok(checked) => Ok(checked),
        Err(Unread::BadLine(line, column)) => Err(CheckFault::BadLine(line, column)),
        Err(Unread::NoMemory) => Err(CheckFault::NoMemory),
    }
}
