// Lines are judged while those behind them are read.
ghost use Rattle.std.specs.Prelude.{◌≡◌, ◌≤◌, ◌<◌, ◌+◌, ◌^◌, ◌++◌, ◌⊎◌, ℕ, List, T, length, IsOk, IfOk, OnOk, IfErr, IsErrAnd};
ghost use Rattle.std.specs.List.{list_all};
ghost use Rattle.std.specs.Thread.{IsSync};
ghost use Rattle.ec_legal.specs.Bounded.{is_bounded_line};
ghost use Rattle.ec_legal.specs.Tried.{IsTried, Stops};
ghost use Rattle.ec_legal.specs.OfTranscript.Limits.{max_transcript_bytes};
ghost use Rattle.ec_legal.specs.OfTranscript.LinesRead.{TranscriptIsRead, IsReadTo, HasBadLine, line_of, shifted};
ghost use Rattle.ec_check.specs.Verdicts.{IsVerdict};
ghost use Rattle.ec_check.specs.Judged.{IsJudged};
ghost use Rattle.ec_legal.specs.declared.transcript.lines.ReadFault.TheVariants as unread;

use crate::checking::Checked;
use ec_base::NoMemory;
use ec_history::Shown;
use ec_legal::transcript::{ReadFault, count_about, cut, read_parts};
use ec_legal::{HistoryFault, Stop, Trial};
use std::alloc::Global;
use std::thread::{Threads, join, join_mut};

/// The lines of a piece are read in so many parts at once, where nothing is judged beside them.
const PARTS: u32 = 4;

/// The same where lines are judged beside them.
const PARTS_BESIDE: u32 = 2;

/// A piece has about so many bytes.
const PIECE_BYTES: usize = 1_048_576;

/// Reads each line of the bytes and judges them all, on a formatted volume with at most so many
/// objects. A piece of the lines is read while those above it are judged. In the end the lines are
/// dropped beside what was carried from line to line.
pub(crate) fn judge_bytes<R: Threads + Sync>(
    rt: &R,
    alloc: Global,
    bytes: &[u8],
    most: u32,
) -> Result<Checked, ReadFault>
    requires { length bytes.now ≤ max_transcript_bytes }
    ensures judged { IfOk result (IsJudged most bytes.now) }
    ensures fault { IfErr result (HasBadLine bytes.now) }
{
    let lines = count_about(bytes);
    let mut trial = match Trial::new(alloc, lines) {
        Ok(trial) => trial,
        Err(NoMemory) => return Err(ReadFault::NoMemory),
    };
    let mut shown = Vec::new(alloc);
    let _ = shown.reserve(lines);
    let judged = judge_pieces(rt, alloc, bytes, most, &mut shown, &mut trial);
    join(rt, move || drop(trial), move || drop(shown));
    judged
}

// Reads the lines piece by piece, and judges them.
fn judge_pieces<R: Threads + Sync>(
    rt: &R,
    alloc: Global,
    bytes: &[u8],
    most: u32,
    shown: &mut Vec<Shown>,
    trial: &mut Trial,
) -> Result<Checked, ReadFault>
    requires few { length bytes.now ≤ max_transcript_bytes }
    requires none { IsReadTo bytes.now bytes.now shown.old.items }
    requires tried { IsTried most trial.old shown.old.items }
    ensures judged { IfOk result (IsJudged most bytes.now) }
    ensures fault { IfErr result (HasBadLine bytes.now) }
{
    let mut rest = bytes;
    'pieces: while !rest.is_empty() {
        let (piece, behind) = cut(rest, PIECE_BYTES);
        let (read, judged) = read_beside(rt, alloc, piece, shown, most, trial);
        if let Err(fault) = take_in(shown, read) {
            return Err(fault);
        }
        rest = behind;
        if let Err(stop) = judged {
            return stopped(rt, alloc, rest, shown, trial, stop);
        }
    }
    match trial.judge_rest(rt, alloc, shown, most) {
        Ok(()) => Ok(Checked::Legal),
        Err(HistoryFault::At(line, rule)) => Ok(Checked::Illegal(line, rule)),
        Err(HistoryFault::NoMemory) => Err(ReadFault::NoMemory),
    }
}

// Reads the lines of the piece, and judges those above it.
fn read_beside<R: Threads + Sync>(
    rt: &R,
    alloc: Global,
    piece: &[u8],
    shown: &[Shown],
    most: u32,
    trial: &mut Trial,
) -> (Result<Vec<Shown>, ReadFault>, Result<(), Stop>)
    requires bytes { length piece.now ≤ max_transcript_bytes }
    requires few { length shown.now < 2 ^ 31 }
    requires bounded { T (list_all is_bounded_line shown.now) }
    requires tried { IsTried most trial.old shown.now }
    ensures read { IfOk result.0 (λ lines. TranscriptIsRead piece.now lines.items) }
    ensures fault { IfErr result.0 (HasBadLine piece.now) }
    ensures tried { OnOk result.1 (IsTried most trial.new shown.now) }
    ensures stop { IfErr result.1 (Stops most trial.new.ahead shown.now) }
{
    join_mut(
        rt,
        &mut || -> Result<Vec<Shown>, ReadFault>
            requires { IsSync R.row × (length piece.now ≤ max_transcript_bytes) }
            ensures { IfOk result (λ lines. TranscriptIsRead piece.entry.now lines.items) × IfErr result (HasBadLine piece.entry.now) }
        { read_parts(rt, alloc, piece, PARTS_BESIDE, 0) },
        &mut || -> Result<(), Stop>
            requires { IsSync R.row × (length shown.now < 2 ^ 31) × T (list_all is_bounded_line shown.now) × IsTried most trial.now shown.now }
            ensures { OnOk result (IsTried most trial.exit.now shown.entry.now) × IfErr result (Stops most trial.exit.now.ahead shown.entry.now) }
        { trial.judge_on(rt, alloc, shown, most) },
    )
}

// Takes in the lines of a piece behind those above it, or tells the bad line's number among all.
fn take_in(lines: &mut Vec<Shown>, read: Result<Vec<Shown>, ReadFault>) -> Result<(), ReadFault>
    requires few { IfErr read (λ fault. length lines.old.items + line_of fault < 2 ^ 32) }
    ensures read { OnOk result (IfOk read (λ more. lines.new.items ≡ lines.old.items ++ more.items)) }
    ensures all { OnOk result (IsOk read) }
    ensures fault { IfErr result (λ fault. (fault ≡ unread.NoMemory) ⊎ IsErrAnd read (λ bad. fault ≡ shifted (length lines.old.items) bad)) }
{
    match read {
        Ok(mut more) => match lines.append(&mut more) {
            Ok(()) => Ok(()),
            Err(_) => Err(ReadFault::NoMemory),
        },
        Err(ReadFault::BadLine(number, column)) => {
            Err(ReadFault::BadLine(lines.len() as u32 + number, column))
        }
        Err(ReadFault::NoMemory) => Err(ReadFault::NoMemory),
    }
}

// Reads the lines that are left, and tells what all are, where the trial of those above stopped.
fn stopped<R: Threads + Sync>(
    rt: &R,
    alloc: Global,
    rest: &[u8],
    shown: &mut Vec<Shown>,
    trial: &mut Trial,
    stop: Stop,
) -> Result<Checked, ReadFault>
    requires few { length shown.old.items + length rest.now ≤ max_transcript_bytes }
    requires stops { (most : ℕ) × Stops most trial.old.ahead shown.old.items stop }
    ensures judged { (bytes : List ℕ) (most : ℕ) → Stops most trial.old.ahead shown.old.items stop → IsReadTo bytes rest.now shown.old.items → IfOk result (IsJudged most bytes) }
    ensures fault { (bytes : List ℕ) → IsReadTo bytes rest.now shown.old.items → IfErr result (HasBadLine bytes) }
{
    let read = read_parts(rt, alloc, rest, PARTS, 0);
    if let Err(fault) = take_in(shown, read) {
        return Err(fault);
    }
    conclude(alloc, shown, trial, stop)
}

// What all of these lines are, where their trial stopped.
fn conclude(
    alloc: Global,
    shown: &[Shown],
    trial: &mut Trial,
    stop: Stop,
) -> Result<Checked, ReadFault>
    requires few { length shown.now < 2 ^ 31 }
    requires stops { (most : ℕ) × Stops most trial.old.ahead shown.now stop }
    ensures verdict { IfOk result (λ checked. (most : ℕ) → Stops most trial.old.ahead shown.now stop → IsVerdict most shown.now checked) }
    ensures memory { IfErr result (λ fault. fault ≡ unread.NoMemory) }
{
    match stop {
        Stop::Line(line, rule) => Ok(Checked::Illegal(line, rule)),
        Stop::Entry(line, rule) => match trial.conclude(alloc, shown, line, rule) {
            HistoryFault::At(line, rule) => Ok(Checked::Illegal(line, rule)),
            HistoryFault::NoMemory => Err(ReadFault::NoMemory),
        },
        Stop::NoMemory => Err(ReadFault::NoMemory),
    }
}
