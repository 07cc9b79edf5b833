// Transcript lines.
ghost use Rattle.std.specs.Prelude.{◌≡◌, ℕ, MatchResult};
ghost use Rattle.ec_words.specs.Rows.{◌▸◌, Last, ◌makes◌};
ghost use Rattle.ec_words.specs.RowsLeft.{IsMisfit, left};
ghost use Rattle.ec_words.specs.Spelling.{IsClerk, IsSmallNumber, IsNumber};
ghost use Rattle.std.specs.Prelude.{codes};
ghost use Rattle.ec_shown.specs.Spelling.{IsLimit, IsCounter};
ghost use Rattle.ec_shown.specs.Rows.{Marked, SpellsList};
ghost use Rattle.ec_shown.specs.Calls.{SpellsAsked};
ghost use Rattle.ec_shown.specs.Lines.{Says, asked_line, SpellsShown, IsShown, IsUnfit, Begun};
ghost use Rattle.std.proofs.Common.{inl};

use crate::answer::Outcome;
use crate::call::read_asked;
use crate::list::read_list;
use crate::name::{Head, first_counter, first_limit, head_of};
use crate::number::{Letter, line_number};
use crate::row::behind;
use ec_base::{ClerkId, Counter, List, OpNo};
use ec_history::{LimitName, Shown};
use ec_plain::Call;
use ec_script::{LineFault, fault_at};
use ec_words::{Misfit, Words, first, no_more, one};
use std::alloc::Global;

/// Reads a transcript line, given without its end. A line is read where it is as `print` writes it.
/// The fault shows the column, from 1, of the first byte of the first word that doesn't fit, or
/// just behind the line where a word is missing.
pub fn read(alloc: Global, line: &[u8]) -> Result<Shown, LineFault>
    ensures { MatchResult result (IsShown line.now) (IsUnfit line.now) }
{
    match read_words(alloc, Words::of(line)) {
        Ok(shown) => Ok(shown),
        Err(misfit) => Err(fault_at(line, misfit)),
    }
}

fn read_words(alloc: Global, words: Words<'_>) -> Result<Shown, Misfit>
    ensures { MatchResult result (SpellsShown (left words.entry)) (IsMisfit SpellsShown (left words.entry)) }
{
    let Some((word, rest)) = words.split() else {
        return Err(Misfit::Unfit(0));
    };
    if let Some(number) = line_number(word) {
        return read_call(alloc, number, rest);
    }
    match head_of(word) {
        Some(head) => read_head(alloc, head, rest),
        None => Err(Misfit::Unfit(words.len())),
    }
}

// What stands behind the number of a script line.
fn read_call(alloc: Global, number: u32, words: Words<'_>) -> Result<Shown, Misfit>
    ensures { MatchResult result (Begun (inl number) (left words.entry)) (IsMisfit (Begun (inl number)) (left words.entry)) }
{
    let (letter, rest) = first::<Letter>(alloc, words)?;
    let (call, outcome) = read_asked(alloc, rest)?;
    Ok(asked_line(number, letter.0, call, outcome))
}

fn asked_line(number: u32, clerk: ClerkId, call: Call, outcome: Outcome) -> Shown
    ensures { result ≡ asked_line number clerk call outcome }
{
    match outcome {
        Outcome::Waits => Shown::Waits(number, clerk, call),
        Outcome::Answered(answer, op) => Shown::Answered(number, clerk, call, answer, op),
    }
}

// What stands behind the first word of a line without a call.
fn read_head(alloc: Global, head: Head, words: Words<'_>) -> Result<Shown, Misfit>
    ensures { MatchResult result (Says head (left words.entry)) (IsMisfit (Says head) (left words.entry)) }
{
    match head {
        Head::Durable => {
            let (clerk, ops) = clerk_ops(alloc, words)?;
            Ok(Shown::Durable(clerk, ops))
        }
        Head::Ended => {
            let (clerk, ops) = clerk_lost(alloc, words)?;
            Ok(Shown::Ended(clerk, ops))
        }
        Head::Unseen => {
            let clerk = one::<ClerkId>(alloc, words)?;
            Ok(Shown::Unseen(clerk))
        }
        Head::Told => {
            let (clerk, ops) = clerk_lost(alloc, words)?;
            Ok(Shown::Told(clerk, ops))
        }
        Head::Crashed => {
            let clerk = one::<ClerkId>(alloc, words)?;
            Ok(Shown::Crashed(clerk))
        }
        Head::Stopped => {
            no_more(words)?;
            Ok(Shown::Stopped)
        }
        Head::Started => {
            no_more(words)?;
            Ok(Shown::Started)
        }
        Head::Nothing => {
            no_more(words)?;
            Ok(Shown::Nothing)
        }
        Head::Unsettled => {
            no_more(words)?;
            Ok(Shown::Unsettled)
        }
        Head::Bad => {
            let (line, column) = line_column(alloc, words)?;
            Ok(Shown::Bad(line, column))
        }
        Head::Disk => {
            let place = bad_place(alloc, words)?;
            Ok(Shown::DiskBad(place))
        }
        Head::Limit => {
            let (name, number) = limit_number(alloc, words)?;
            Ok(Shown::Limit(name, number))
        }
        Head::Spent => {
            let counter = only_counter(words)?;
            Ok(Shown::Spent(counter))
        }
    }
}

fn clerk_ops(alloc: Global, words: Words<'_>) -> Result<(ClerkId, List<OpNo>), Misfit>
    ensures { MatchResult result ((IsClerk ▸ SpellsList) (left words.entry)) (IsMisfit (IsClerk ▸ SpellsList) (left words.entry)) }
{
    let (letter, rest) = first::<Letter>(alloc, words)?;
    let ops = read_list(alloc, rest)?;
    Ok((letter.0, ops))
}

fn clerk_lost(alloc: Global, words: Words<'_>) -> Result<(ClerkId, List<OpNo>), Misfit>
    ensures { MatchResult result ((IsClerk ▸ Marked (codes "lost") SpellsList) (left words.entry)) (IsMisfit (IsClerk ▸ Marked (codes "lost") SpellsList) (left words.entry)) }
{
    let (letter, rest) = first::<Letter>(alloc, words)?;
    let ops = lost_ops(alloc, rest)?;
    Ok((letter.0, ops))
}

fn lost_ops(alloc: Global, words: Words<'_>) -> Result<List<OpNo>, Misfit>
    ensures { MatchResult result (Marked (codes "lost") SpellsList (left words.entry)) (IsMisfit (Marked (codes "lost") SpellsList) (left words.entry)) }
{
    let rest = behind(words, b"lost")?;
    let ops = read_list(alloc, rest)?;
    Ok(ops)
}

fn line_column(alloc: Global, words: Words<'_>) -> Result<(u32, u32), Misfit>
    ensures { MatchResult result ((IsSmallNumber ▸ Marked (codes "col") (Last IsSmallNumber)) (left words.entry)) (IsMisfit (IsSmallNumber ▸ Marked (codes "col") (Last IsSmallNumber)) (left words.entry)) }
{
    let (line, rest) = first::<u32>(alloc, words)?;
    let column = column(alloc, rest)?;
    Ok((line, column))
}

fn column(alloc: Global, words: Words<'_>) -> Result<u32, Misfit>
    ensures { MatchResult result (Marked (codes "col") (Last IsSmallNumber) (left words.entry)) (IsMisfit (Marked (codes "col") (Last IsSmallNumber)) (left words.entry)) }
{
    let rest = behind(words, b"col")?;
    let column = one::<u32>(alloc, rest)?;
    Ok(column)
}

fn bad_place(alloc: Global, words: Words<'_>) -> Result<u64, Misfit>
    ensures { MatchResult result (Marked (codes "bad") (Last IsNumber) (left words.entry)) (IsMisfit (Marked (codes "bad") (Last IsNumber)) (left words.entry)) }
{
    let rest = behind(words, b"bad")?;
    let place = one::<u64>(alloc, rest)?;
    Ok(place)
}

fn limit_number(alloc: Global, words: Words<'_>) -> Result<(LimitName, u64), Misfit>
    ensures { MatchResult result ((IsLimit ▸ Last IsNumber) (left words.entry)) (IsMisfit (IsLimit ▸ Last IsNumber) (left words.entry)) }
{
    let (name, rest) = first_limit(words)?;
    let number = one::<u64>(alloc, rest)?;
    Ok((name, number))
}

fn only_counter(words: Words<'_>) -> Result<Counter, Misfit>
    ensures { MatchResult result (Last IsCounter (left words.entry)) (IsMisfit (Last IsCounter) (left words.entry)) }
{
    let (counter, rest) = first_counter(words)?;
    no_more(rest)?;
    Ok(counter)
}
