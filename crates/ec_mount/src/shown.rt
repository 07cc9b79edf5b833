// What a mount writes.
ghost use Rattle.std.specs.Prelude.{◌≡◌, ◌≤◌, ◌<◌, ℕ, [], ◌∷◌, ◌++◌, length, map, codes, IfOk, OnOk, List as Listed};
ghost use Rattle.std.specs.Fmt.{decimal};
ghost use Rattle.std.specs.List.{flat_map};
ghost use Rattle.ec_words.specs.OfText.Answers.{answered_text};
ghost use Rattle.ec_words.specs.OfText.Lines.{shown_text};
ghost use Rattle.ec_mount.specs.Shown.{row_text, answers_text, lanes_text, told_text, end_text, came_text, old_boot_text, peer_text};
ghost use Rattle.ec_mount.specs.Script.{rows_of};
ghost use Rattle.ec_mount.specs.Work.{given_of};
ghost use Rattle.ec_mount.specs.Writes.{Wrote};

use crate::script::Row;
use crate::work::Answers;
use ec_base::{Age, Duplicate, List, NoMemory, OpNo, Sink};
use ec_clerknode::Reply;
use ec_history::{Answer, Shown};
use ec_streams::{WriteFault, write_whole};
use ec_words::text::{print, print_answer, print_call};
use std::alloc::Global;

// Puts a number and a space behind a text.
fn put_number(alloc: Global, text: &mut Vec<u8>, number: u64) -> Result<(), NoMemory>
    ensures { OnOk result (text.new.items ≡ text.old.items ++ decimal number ++ codes " ") }
{
    text.extend_from_slice(number.to_string(alloc)?.as_bytes())?;
    text.extend_from_slice(b" ")?;
    Ok(())
}

// Puts an answer behind a text, and the end of the line.
fn put_answer(alloc: Global, text: &mut Vec<u8>, reply: &Reply) -> Result<(), NoMemory>
    ensures { OnOk result (text.new.items ≡ text.old.items ++ answered_text reply.now.0 reply.now.1 ++ 10 ∷ []) }
{
    text.extend_from_slice(&print_answer(alloc, &reply.0, reply.1)?)?;
    text.extend_from_slice(b"\n")?;
    Ok(())
}

// The line of a row with its answer.
fn row_line(alloc: Global, row: &Row, reply: &Reply) -> Result<Vec<u8>, NoMemory>
    ensures { IfOk result (λ text. text.items ≡ row_text row.now reply.now) }
{
    let mut text = Vec::new(alloc);
    put_number(alloc, &mut text, u64::from(row.line))?;
    put_number(alloc, &mut text, u64::from(row.lane))?;
    text.extend_from_slice(&print_call(alloc, &row.call)?)?;
    text.extend_from_slice(b" -> ")?;
    put_answer(alloc, &mut text, reply)?;
    Ok(text)
}

// The line of what was told lost as a session ended.
fn told_line(alloc: Global, ops: &List<OpNo>) -> Result<Vec<u8>, NoMemory>
    ensures { IfOk result (λ text. text.items ≡ told_text ops.now) }
{
    let lost = Answer::Lost(ops.duplicate()?);
    let made = print_answer(alloc, &lost, None);
    drop(lost);
    let made = made?;
    let mut text = Vec::from_slice(alloc, b"told ")?;
    text.extend_from_slice(&made)?;
    text.extend_from_slice(b"\n")?;
    Ok(text)
}

/// The line of the last sync. The error is want of memory.
pub fn end_line(alloc: Global, reply: &Reply) -> Result<Vec<u8>, NoMemory>
    ensures { IfOk result (λ text. text.items ≡ end_text reply.now) }
{
    let mut text = Vec::from_slice(alloc, b"end sync -> ")?;
    put_answer(alloc, &mut text, reply)?;
    Ok(text)
}

// A line of a word and a number.
fn word_line(alloc: Global, word: &[u8], number: u64) -> Result<Vec<u8>, NoMemory>
    ensures { IfOk result (λ text. text.items ≡ word.now ++ decimal number ++ 10 ∷ []) }
{
    let mut text = Vec::from_slice(alloc, word)?;
    text.extend_from_slice(number.to_string(alloc)?.as_bytes())?;
    text.extend_from_slice(b"\n")?;
    Ok(text)
}

/// The last line where the server knows a greater age. The error is want of memory.
pub fn old_boot_line(alloc: Global, age: Age) -> Result<Vec<u8>, NoMemory>
    ensures { IfOk result (λ text. text.items ≡ old_boot_text age) }
{
    word_line(alloc, b"oldboot ", age.boot)
}

/// The last line where the server sent what is no message. The error is want of memory.
pub fn peer_line(alloc: Global, place: u64) -> Result<Vec<u8>, NoMemory>
    ensures { IfOk result (λ text. text.items ≡ peer_text place) }
{
    word_line(alloc, b"peer ", place)
}

/// The last line where a line of a transcript says why. The error is want of memory.
pub fn shown_line(alloc: Global, line: Shown) -> Result<Vec<u8>, NoMemory>
    ensures { IfOk result (λ text. text.items ≡ shown_text line) }
{
    let text = print(alloc, &line);
    drop(line);
    text
}

/// Writes a line as one piece, where there was memory for it.
pub fn write_line<K: Sink>(sink: &mut K, line: Result<Vec<u8>, NoMemory>) -> Result<(), WriteFault>
    ensures later { K.faults sink.old ≤ K.faults sink.new }
    ensures written { (text : Listed ℕ) → 0 < length text → IfOk line (λ made. made.items ≡ text) → Wrote text (K.held sink.old) (K.held sink.new) (K.faults sink.old) (K.faults sink.new) result }
{
    match line {
        Ok(text) => write_whole(sink, &text),
        Err(NoMemory) => Err(WriteFault::NoMemory),
    }
}

// Writes the rows of one lane with their answers.
fn write_lane<K: Sink>(
    alloc: Global,
    sink: &mut K,
    rows: &[Row],
    lane: usize,
    replies: &[Reply],
) -> Result<(), WriteFault>
    ensures later { K.faults sink.old ≤ K.faults sink.new }
    ensures written { Wrote (answers_text (rows_of lane rows.now) replies.now) (K.held sink.old) (K.held sink.new) (K.faults sink.old) (K.faults sink.new) result }
{
    let mut left = replies;
    'rows: for row in rows {
        if usize::from(row.lane) == lane {
            let Some((reply, rest)) = left.split_first() else {
                return Ok(());
            };
            write_line(sink, row_line(alloc, row, reply))?;
            left = rest;
        }
    }
    Ok(())
}

// Writes the rows with their answers, lane by lane.
fn write_lanes<K: Sink>(
    alloc: Global,
    sink: &mut K,
    rows: &[Row],
    lanes: &[Vec<Reply>],
) -> Result<(), WriteFault>
    ensures later { K.faults sink.old ≤ K.faults sink.new }
    ensures written { Wrote (lanes_text 1 rows.now (map (λ w. w.items) lanes.now)) (K.held sink.old) (K.held sink.new) (K.faults sink.old) (K.faults sink.new) result }
{
    let mut lane = 1;
    'lanes: for replies in lanes {
        write_lane(alloc, sink, rows, lane, replies)?;
        lane += 1;
    }
    Ok(())
}

// Writes a line for each session that ended.
fn write_told<K: Sink>(alloc: Global, sink: &mut K, told: &[List<OpNo>]) -> Result<(), WriteFault>
    ensures later { K.faults sink.old ≤ K.faults sink.new }
    ensures written { Wrote (flat_map told_text told.now) (K.held sink.old) (K.held sink.new) (K.faults sink.old) (K.faults sink.new) result }
{
    'told: for ops in told {
        write_line(sink, told_line(alloc, ops))?;
    }
    Ok(())
}

/// Writes the answers that came: each row with its own, lane by lane, and what was told lost. Where the sink fails or memory is
/// wanting, a front of that is written.
pub fn write_came<K: Sink>(
    alloc: Global,
    sink: &mut K,
    rows: &[Row],
    answers: &Answers,
) -> Result<(), WriteFault>
    ensures later { K.faults sink.old ≤ K.faults sink.new }
    ensures written { Wrote (came_text rows.now (given_of answers.now).0 (given_of answers.now).1) (K.held sink.old) (K.held sink.new) (K.faults sink.old) (K.faults sink.new) result }
{
    write_lanes(alloc, sink, rows, &answers.lanes)?;
    write_told(alloc, sink, &answers.told)
}
