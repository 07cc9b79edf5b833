// What is written of calls over several volumes.
ghost use Rattle.std.specs.Prelude.{◌≡◌, ℕ, [], ◌∷◌, ◌++◌, codes, drop, length, map, IfOk, OnOk, List as Listed};
ghost use Rattle.std.specs.Fmt.{decimal};
ghost use Rattle.std.specs.List.{flat_map};
ghost use Rattle.ec_clerknode.specs.LaneRuns.{lists_of};
ghost use Rattle.ec_words.specs.OfText.Answers.{answered_text};
ghost use Rattle.ec_words.specs.OfText.Calls.{call_text};
ghost use Rattle.ec_words.specs.OfText.Pieces.{path_text};
ghost use Rattle.ec_mount_words.specs.OfRoute.Calls.{raised};
ghost use Rattle.ec_mount_table.specs.Shown.{all_told_text, came_text, line_text, mounts_text, part_text, rows_text, seen_text, sync_text, syncs_text, told_text};

use crate::script::Row;
use crate::seen::Seen;
use crate::work::Answers;
use ec_base::{Duplicate, List, NoMemory, OpNo, Path};
use ec_clerknode::Reply;
use ec_history::Answer;
use ec_mount_words::route::raised_answer;
use ec_mounts::names_of;
use ec_plain::Call;
use ec_words::text::{print_answer, print_call};
use std::alloc::Global;

fn put_number(alloc: Global, text: &mut Vec<u8>, number: u64) -> Result<(), NoMemory>
    ensures { OnOk result (text.new.items ≡ text.old.items ++ decimal number) }
{
    text.extend_from_slice(number.to_string(alloc)?.as_bytes())?;
    Ok(())
}

// A path as it's printed among the words of a call.
fn put_path(alloc: Global, text: &mut Vec<u8>, path: &Path) -> Result<(), NoMemory>
    ensures { OnOk result (text.new.items ≡ text.old.items ++ path_text path.now) }
{
    let call = Call::Stat(path.duplicate()?);
    let made = print_call(alloc, &call);
    drop(call);
    let made = made?;
    text.extend_from_slice(&made[5..])?;
    Ok(())
}

// An answer, and the end of the line.
fn put_answer(
    alloc: Global,
    text: &mut Vec<u8>,
    answer: &Answer,
    op: Option<OpNo>,
) -> Result<(), NoMemory>
    ensures { OnOk result (text.new.items ≡ text.old.items ++ answered_text answer.now op ++ 10 ∷ []) }
{
    text.extend_from_slice(&print_answer(alloc, answer, op)?)?;
    text.extend_from_slice(b"\n")?;
    Ok(())
}

// A word, and the end of the line.
fn put_word(text: &mut Vec<u8>, word: &[u8]) -> Result<(), NoMemory>
    ensures { OnOk result (text.new.items ≡ text.old.items ++ word.now ++ 10 ∷ []) }
{
    text.extend_from_slice(word)?;
    text.extend_from_slice(b"\n")?;
    Ok(())
}

// A row's number and a space.
fn put_line(alloc: Global, text: &mut Vec<u8>, row: &Row) -> Result<(), NoMemory>
    ensures { OnOk result (text.new.items ≡ text.old.items ++ line_text row.now) }
{
    put_number(alloc, text, u64::from(row.line))?;
    text.extend_from_slice(b" ")?;
    Ok(())
}

// A row up to its answer.
fn put_call(alloc: Global, text: &mut Vec<u8>, row: &Row) -> Result<(), NoMemory>
    ensures { OnOk result (text.new.items ≡ text.old.items ++ line_text row.now ++ call_text row.now.call ++ codes " -> ") }
{
    put_line(alloc, text, row)?;
    text.extend_from_slice(&print_call(alloc, &row.call)?)?;
    text.extend_from_slice(b" -> ")?;
    Ok(())
}

// The answer of the volume at this place, with the numbers of its names raised.
fn put_raised(alloc: Global, text: &mut Vec<u8>, path: &Path, reply: &Reply) -> Result<(), NoMemory>
    ensures { OnOk result (text.new.items ≡ text.old.items ++ answered_text (raised (length path.now) reply.now.0) reply.now.1 ++ 10 ∷ []) }
{
    let answer = raised_answer(names_of(path) as u8, reply.0.duplicate()?);
    let put = put_answer(alloc, text, &answer, reply.1);
    drop(answer);
    put
}

fn put_sync(
    alloc: Global,
    text: &mut Vec<u8>,
    front: &[u8],
    path: &Path,
    reply: &Reply,
) -> Result<(), NoMemory>
    ensures { OnOk result (text.new.items ≡ text.old.items ++ sync_text front.now path.now reply.now) }
{
    text.extend_from_slice(front)?;
    put_path(alloc, text, path)?;
    text.extend_from_slice(b" sync -> ")?;
    put_answer(alloc, text, &reply.0, reply.1)
}

// A line for each volume that replied.
fn put_syncs(
    alloc: Global,
    text: &mut Vec<u8>,
    front: &[u8],
    table: &[Path],
    replies: &[Reply],
) -> Result<(), NoMemory>
    ensures { OnOk result (text.new.items ≡ text.old.items ++ syncs_text front.now table.now replies.now) }
{
    let mut left = replies;
    'table: for path in table {
        let Some((reply, rest)) = left.split_first() else {
            return Ok(());
        };
        put_sync(alloc, text, front, path, reply)?;
        left = rest;
    }
    Ok(())
}

// The lines of a row that is a sync.
fn put_row_syncs(
    alloc: Global,
    text: &mut Vec<u8>,
    table: &[Path],
    row: &Row,
    replies: &[Reply],
) -> Result<(), NoMemory>
    ensures { OnOk result (text.new.items ≡ text.old.items ++ syncs_text (line_text row.now) table.now replies.now) }
{
    let mut front = Vec::new(alloc);
    put_line(alloc, &mut front, row)?;
    put_syncs(alloc, text, &front, table, replies)
}

// A row with what it met.
fn put_seen(
    alloc: Global,
    text: &mut Vec<u8>,
    table: &[Path],
    row: &Row,
    met: &Seen,
) -> Result<(), NoMemory>
    ensures { OnOk result (text.new.items ≡ text.old.items ++ seen_text table.now row.now met.now) }
{
    match met {
        Seen::To(place, reply) => {
            let Some(path) = table.get(*place) else {
                return Err(NoMemory);
            };
            put_call(alloc, text, row)?;
            put_raised(alloc, text, path, reply)
        }
        Seen::NoVolume(number) => {
            let mut why = Vec::from_slice(alloc, b"refused NoVolume ")?;
            put_number(alloc, &mut why, u64::from(*number))?;
            put_call(alloc, text, row)?;
            put_word(text, &why)
        }
        Seen::CrossVolume => {
            put_call(alloc, text, row)?;
            put_word(text, b"refused CrossVolume")
        }
        Seen::All(replies) => put_row_syncs(alloc, text, table, row, replies),
    }
}

// The rows that met something.
fn put_rows(
    alloc: Global,
    text: &mut Vec<u8>,
    table: &[Path],
    rows: &[Row],
    mets: &[Seen],
) -> Result<(), NoMemory>
    ensures { OnOk result (text.new.items ≡ text.old.items ++ rows_text table.now rows.now mets.now) }
{
    let mut left = mets;
    'rows: for row in rows {
        let Some((met, rest)) = left.split_first() else {
            return Ok(());
        };
        put_seen(alloc, text, table, row, met)?;
        left = rest;
    }
    Ok(())
}

// What came to the row at this place, the first that met nothing.
fn put_part(
    alloc: Global,
    text: &mut Vec<u8>,
    table: &[Path],
    rows: &[Row],
    place: usize,
    replies: &[Reply],
) -> Result<(), NoMemory>
    ensures { OnOk result (text.new.items ≡ text.old.items ++ part_text table.now (drop place rows.now) replies.now) }
{
    match rows.get(place) {
        Some(row) => put_row_syncs(alloc, text, table, row, replies),
        None => Ok(()),
    }
}

// The operations that a volume told lost as a session ended.
fn put_lost(
    alloc: Global,
    text: &mut Vec<u8>,
    path: &Path,
    ops: &List<OpNo>,
) -> Result<(), NoMemory>
    ensures { OnOk result (text.new.items ≡ text.old.items ++ told_text path.now ops.now) }
{
    text.extend_from_slice(b"told ")?;
    put_path(alloc, text, path)?;
    text.extend_from_slice(b" ")?;
    let lost = Answer::Lost(ops.duplicate()?);
    let made = print_answer(alloc, &lost, None);
    drop(lost);
    text.extend_from_slice(&made?)?;
    text.extend_from_slice(b"\n")?;
    Ok(())
}

fn put_told(
    alloc: Global,
    text: &mut Vec<u8>,
    path: &Path,
    lists: &[List<OpNo>],
) -> Result<(), NoMemory>
    ensures { OnOk result (text.new.items ≡ text.old.items ++ flat_map (told_text path.now) lists.now) }
{
    'lists: for ops in lists {
        put_lost(alloc, text, path, ops)?;
    }
    Ok(())
}

// Volume by volume.
fn put_all_told(
    alloc: Global,
    text: &mut Vec<u8>,
    table: &[Path],
    told: &[Vec<List<OpNo>>],
) -> Result<(), NoMemory>
    ensures { OnOk result (text.new.items ≡ text.old.items ++ all_told_text table.now (map (λ v. v.items) told.now)) }
{
    let mut left = told;
    'table: for path in table {
        let Some((lists, rest)) = left.split_first() else {
            return Ok(());
        };
        put_told(alloc, text, path, lists)?;
        left = rest;
    }
    Ok(())
}

/// The answers that came before a fault, what was told lost, and this last line.
pub fn came_line(
    alloc: Global,
    table: &[Path],
    rows: &[Row],
    answers: &Answers,
    line: Result<Vec<u8>, NoMemory>,
) -> Result<Vec<u8>, NoMemory>
    ensures { (t : Listed ℕ) → IfOk line (λ last. last.items ≡ t) → IfOk result (λ text. text.items ≡ came_text table.now rows.now answers.now.mets.items answers.now.replies.items (lists_of answers.now.told) ++ t) }
{
    let last = line?;
    let mut text = Vec::new(alloc);
    put_rows(alloc, &mut text, table, rows, &answers.mets)?;
    let done = answers.mets.len();
    put_part(alloc, &mut text, table, rows, done, &answers.replies)?;
    put_all_told(alloc, &mut text, table, &answers.told)?;
    text.extend_from_slice(&last)?;
    Ok(text)
}

/// All answers, what was told lost, and the answers to the last syncs.
pub fn whole_text(
    alloc: Global,
    table: &[Path],
    rows: &[Row],
    answers: &Answers,
    lasts: &[Reply],
) -> Result<Vec<u8>, NoMemory>
    ensures { IfOk result (λ text. text.items ≡ mounts_text table.now rows.now answers.now.mets.items (lists_of answers.now.told) lasts.now) }
{
    let mut text = Vec::new(alloc);
    put_rows(alloc, &mut text, table, rows, &answers.mets)?;
    put_all_told(alloc, &mut text, table, &answers.told)?;
    put_syncs(alloc, &mut text, b"end ", table, lasts)?;
    Ok(text)
}
