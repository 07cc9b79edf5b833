// The lines of a transcript, read in parts side by side.
ghost use Rattle.std.specs.Prelude.{◌≡◌, ◌≢◌, ◌≤◌, ◌<◌, ◌++◌, [], IfOk, IfErr, length};
ghost use Rattle.std.specs.Thread.{IsSync};
ghost use Rattle.ec_script.specs.Lines.{lines_of};
ghost use Rattle.ec_legal.specs.OfTranscript.Limits.{max_transcript_bytes};
ghost use Rattle.ec_legal.specs.OfTranscript.LinesRead.{TranscriptIsRead, HasBadLine};
ghost use Rattle.ec_legal.specs.declared.transcript.lines.ReadFault.TheVariants.{NoMemory};

use crate::transcript::lines::{ReadFault, count_about, read_lines};
use ec_history::Shown;
use std::alloc::Global;
use std::thread::{Threads, join};

/// Reads each line, in at most so many parts, each by a thread of its own where one can be made. It
/// leaves room for so many more lines behind them, where there is memory for it: the lines of the
/// other parts come behind those of the first one, which then stay where they are.
#[cycle(parts)]
pub fn read_parts<R: Threads + Sync>(
    rt: &R,
    alloc: Global,
    bytes: &[u8],
    parts: u32,
    room: usize,
) -> Result<Vec<Shown>, ReadFault>
    requires { length bytes.now ≤ max_transcript_bytes }
    ensures read { IfOk result (λ shown. TranscriptIsRead bytes.now shown.items) }
    ensures fault { IfErr result (λ fault. HasBadLine bytes.now fault) }
{
    if parts < 2 {
        return read_lines(alloc, bytes, room);
    }
    let (front, back) = cut(bytes, bytes.len() / 2);
    let front_room = count_about(back).saturating_add(room);
    let low = parts / 2;
    let high = parts - low;
    let upper = move || -> Result<Vec<Shown>, ReadFault>
        requires { IsSync R.row × (length front.now ≤ max_transcript_bytes) }
        ensures { IfOk result (λ shown. TranscriptIsRead front.entry.now shown.items) × IfErr result (λ fault. HasBadLine front.entry.now fault) }
    { read_parts(rt, alloc, front, low, front_room) };
    let lower = move || -> Result<Vec<Shown>, ReadFault>
        requires { IsSync R.row × (length back.now ≤ max_transcript_bytes) }
        ensures { IfOk result (λ shown. TranscriptIsRead back.entry.now shown.items) × IfErr result (λ fault. HasBadLine back.entry.now fault) }
    { read_parts(rt, alloc, back, high, 0) };
    let (above, below) = join(rt, upper, lower);
    let lines = above?;
    match below {
        Ok(more) => append(lines, more),
        Err(ReadFault::BadLine(number, column)) => {
            Err(ReadFault::BadLine(lines.len() as u32 + number, column))
        }
        Err(ReadFault::NoMemory) => Err(ReadFault::NoMemory),
    }
}

fn append(mut lines: Vec<Shown>, mut more: Vec<Shown>) -> Result<Vec<Shown>, ReadFault>
    ensures items { IfOk result (λ all. all.items ≡ lines.items ++ more.items) }
    ensures memory { IfErr result (λ fault. fault ≡ NoMemory) }
{
    if lines.append(&mut more).is_err() {
        return Err(ReadFault::NoMemory);
    }
    Ok(lines)
}

/// The lines of about so many of the bytes, and those behind them.
pub fn cut(bytes: &[u8], near: usize) -> (&[u8], &[u8])
    ensures lines { lines_of bytes.now ≡ lines_of result.0.now ++ lines_of result.1.now }
    ensures bytes { bytes.now ≡ result.0.now ++ result.1.now }
    ensures onward { bytes.now ≢ [] → length result.1.now < length bytes.now }
{
    for at in near..bytes.len() {
        if bytes[at] == b'\n' {
            return bytes.split_at(at + 1);
        }
    }
    bytes.split_at(bytes.len())
}
