// The script of a mount: each line is a lane's number and a call.
ghost use Rattle.std.specs.Prelude.{◌≡◌, ◌≤◌, ◌<◌, ℕ, length, map, MatchResult, IfOk};
ghost use Rattle.ec_script.specs.Lines.{lines_of};
ghost use Rattle.ec_mount.specs.Script.{AreRows, GivesRows, IsBadAt, calls_of, lanes_of, most_lines};
ghost use Rattle.ec_mount.specs.Withheld.{Withholds};
ghost use Rattle.ec_mount.specs.Calls.{ReadsRows};

use crate::limits::{MOST_BYTES, MOST_LINES};
use ec_base::{Duplicate, List, NoMemory, Source};
use ec_plain::Call;
use ec_script::{LineFault, count_lines, read_lane, split_line};
use ec_streams::{ReadFault, read_whole};
use std::alloc::{AllocFailed, Global};

/// A line of a script.
#[derive(Drop)]
pub struct Row {
    pub line: u32,
    pub lane: u8,
    pub call: Call,
}

/// Why a script gives no rows.
#[derive(Clone, Copy, Drop)]
pub enum Unread {
    /// The source has too many bytes.
    Bytes,
    /// It has so many lines.
    Lines(u64),
    /// This line is no line of a lane, from this column on.
    Bad(u32, u32),
    /// The source failed.
    Source,
    NoMemory,
}

impl<T: Drop> From<AllocFailed<T>> for Unread {
    ghost use Rattle.std.specs.Prelude.{◌≡◌};
    ghost use Rattle.ec_mount.specs.declared.script.Unread.TheVariants as unread;

    ghost from_gives = { λ _ e. e ≡ unread.NoMemory };

    fn from(_: AllocFailed<T>) -> Self {
        Unread::NoMemory
    }
}

/// The rows of the script that the source gives, read to its end. Else what withholds them: a limit, the first line that is none of
/// a lane, a source that fails, or want of memory.
pub fn rows_of<S: Source>(alloc: Global, source: &mut S) -> Result<Vec<Row>, Unread>
    ensures given { MatchResult result
        (λ rows. GivesRows (S.left source.old) (S.left source.new) rows.items)
        (λ why. Withholds (S.left source.old) (S.left source.new) (S.faults source.old) (S.faults source.new) why) }
    ensures later { S.faults source.old ≤ S.faults source.new }
{
    let script = match read_whole(alloc, source, MOST_BYTES) {
        Ok(script) => script,
        Err(ReadFault::TooMany) => return Err(Unread::Bytes),
        Err(ReadFault::Failed) => return Err(Unread::Source),
        Err(ReadFault::NoMemory) => return Err(Unread::NoMemory),
    };
    let count = count_lines(&script);
    if count > MOST_LINES {
        return Err(Unread::Lines(count as u64));
    }
    read_rows(alloc, &script)
}

// The rows of a script's lines.
fn read_rows(alloc: Global, script: &[u8]) -> Result<Vec<Row>, Unread>
    requires { length (lines_of script.now) ≤ most_lines }
    ensures { MatchResult result (λ rows. AreRows 1 (lines_of script.now) rows.items) (ReadsRows (lines_of script.now)) }
{
    let mut rows = Vec::new(alloc);
    let mut ahead = script;
    let mut line = 1u32;
    'lines: while !ahead.is_empty() {
        let (bytes, next) = split_line(ahead);
        let (lane, call) = match read_lane(alloc, bytes) {
            Ok(read) => read,
            Err(LineFault::At(column)) => return Err(Unread::Bad(line, column)),
            Err(LineFault::NoMemory) => return Err(Unread::NoMemory),
        };
        rows.push(Row { line, lane, call })?;
        ahead = next;
        line += 1;
    }
    Ok(rows)
}

// The calls of one lane, in order.
fn calls_of(alloc: Global, rows: &[Row], lane: u8) -> Result<List<Call>, NoMemory>
    ensures { IfOk result (λ calls. calls ≡ calls_of lane rows.now) }
{
    let mut calls = Vec::new(alloc);
    'rows: for row in rows {
        if row.lane == lane {
            calls.push(row.call.duplicate()?)?;
        }
    }
    Ok(List::of(calls))
}

// The calls of each of these lanes.
fn calls_of_each(alloc: Global, rows: &[Row], lanes: &[u8]) -> Result<Vec<List<Call>>, NoMemory>
    ensures { IfOk result (λ made. made.items ≡ map (λ lane. calls_of lane rows.now) lanes.now) }
{
    let mut made = Vec::with_capacity(alloc, lanes.len())?;
    'lanes: for lane in lanes {
        made.push(calls_of(alloc, rows, *lane)?)?;
    }
    Ok(made)
}

/// The calls of each lane, from 1 to 8. The error is want of memory.
pub fn lanes_of(alloc: Global, rows: &[Row]) -> Result<Vec<List<Call>>, NoMemory>
    ensures { IfOk result (λ lanes. lanes.items ≡ lanes_of rows.now) }
{
    calls_of_each(alloc, rows, &[1, 2, 3, 4, 5, 6, 7, 8])
}
