// The script of calls over several volumes: each line is a call.
ghost use Rattle.std.specs.Prelude.{◌≤◌, length, MatchResult};
ghost use Rattle.ec_script.specs.Grammar.{IsOutside};
ghost use Rattle.ec_script.specs.Lines.{lines_of};
ghost use Rattle.ec_words.specs.Calls.{SpellsCall};
ghost use Rattle.ec_words.specs.Words.{words_of};
ghost use Rattle.ec_mount.specs.Script.{most_lines};
ghost use Rattle.ec_mount_table.specs.Rows.{AreRows, GivesRows};
ghost use Rattle.ec_mount_table.specs.Reading.{ReadsRows, GivesNone};

use ec_base::Source;
use ec_mount::{MOST_BYTES, MOST_LINES, Unread};
use ec_plain::Call;
use ec_script::{LineFault, count_lines, fault_at, split_line};
use ec_streams::{ReadFault, read_whole};
use ec_words::{Words, read_call};
use std::alloc::Global;

/// A line of a script.
#[derive(Drop)]
pub struct Row {
    pub line: u32,
    pub call: Call,
}

/// The rows of the script that the source gives, read to its end.
pub fn rows_of<S: Source>(alloc: Global, source: &mut S) -> Result<Vec<Row>, Unread>
    ensures given { MatchResult result
        (λ rows. GivesRows (S.left source.old) (S.left source.new) rows.items)
        (λ why. GivesNone (S.left source.old) (S.left source.new) (S.faults source.old) (S.faults source.new) why) }
    ensures later { S.faults source.old ≤ S.faults source.new }
{
    let script = match read_whole(alloc, source, MOST_BYTES) {
        Ok(script) => script,
        Err(ReadFault::TooMany) => return Err(Unread::Bytes),
        Err(ReadFault::Failed) => return Err(Unread::Source),
        Err(ReadFault::NoMemory) => return Err(Unread::NoMemory),
    };
    let count = count_lines(&script);
    if count > MOST_LINES {
        return Err(Unread::Lines(count as u64));
    }
    read_rows(alloc, &script)
}

// The rows of a script's lines.
fn read_rows(alloc: Global, script: &[u8]) -> Result<Vec<Row>, Unread>
    requires { length (lines_of script.now) ≤ most_lines }
    ensures { MatchResult result (λ rows. AreRows 1 (lines_of script.now) rows.items) (ReadsRows (lines_of script.now)) }
{
    let mut rows = Vec::new(alloc);
    let mut ahead = script;
    let mut line = 1u32;
    'lines: while !ahead.is_empty() {
        let (bytes, next) = split_line(ahead);
        let call = match read_bare(alloc, bytes) {
            Ok(call) => call,
            Err(LineFault::At(column)) => return Err(Unread::Bad(line, column)),
            Err(LineFault::NoMemory) => return Err(Unread::NoMemory),
        };
        rows.push(Row { line, call })?;
        ahead = next;
        line += 1;
    }
    Ok(rows)
}

// The call that a line spells.
fn read_bare(alloc: Global, line: &[u8]) -> Result<Call, LineFault>
    ensures { MatchResult result (SpellsCall (words_of line.now)) (IsOutside SpellsCall line.now) }
{
    match read_call(alloc, Words::of(line)) {
        Ok(call) => Ok(call),
        Err(misfit) => Err(fault_at(line, misfit)),
    }
}
