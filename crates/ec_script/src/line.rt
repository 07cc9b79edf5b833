// The grammar of a line.
ghost use Rattle.std.specs.Prelude.{◌≡◌, MatchBool, MatchResult};
ghost use Rattle.ec_script.specs.Grammar.{Spells, SpellsLane, IsComment, IsLine, IsFault, IsLaneLine, IsOutside};
ghost use Rattle.ec_script.specs.LineFaults.{fault_at};
ghost use Rattle.ec_words.specs.RowsLeft.{IsMisfit, left};

use crate::keyword::read_keyword;
use ec_base::{ClerkId, NoMemory, OpNo};
use ec_disk::Choice;
use ec_plain::Call;
use ec_wire::MsgKind;
use ec_words::{Lane, Misfit, Words, clerk_of, column_left, first, keyword_of, read_call};
use std::alloc::Global;
use thiserror::Error;

/// A line of a script. The number behind a kind of message counts those of this kind between this
/// clerk and the server.
#[derive(Drop)]
pub enum Line {
    /// An empty line, or one that begins with `#`.
    Comment,
    Call(ClerkId, Call),
    /// The closure of this operation is to be sent until it is durable.
    Push(ClerkId, OpNo),
    Cut(ClerkId),
    Uncut(ClerkId),
    Drop(ClerkId, MsgKind, u32),
    Repeat(ClerkId, MsgKind, u32),
    Deliver(ClerkId, MsgKind, u32),
    Resend(ClerkId),
    Crash(ClerkId),
    End(ClerkId),
    Stop,
    /// A stop in one of the next device calls, from 1 to 1,000,000, and what the power cut leaves.
    Arm(u64, Choice),
    Restart,
}

/// Why a line was not read.
#[derive(Clone, Copy, Debug, Drop, PartialEq, Eq, Error)]
pub enum LineFault {
    /// The line is outside the grammar. The column, from 1, is that of the first byte of the first
    /// word that doesn't fit, or just behind the line where a word is missing.
    #[error("no such line: column {0}")]
    At(u32),
    #[error("out of memory")]
    NoMemory,
}

impl From<NoMemory> for LineFault {
    ghost use Rattle.ec_script.specs.declared.line.LineFault.TheVariants as fault;

    ghost from_gives = { λ _ e. e ≡ fault.NoMemory };

    fn from(_: NoMemory) -> Self {
        LineFault::NoMemory
    }
}

/// Reads a line, given without its end.
pub fn read_line(alloc: Global, line: &[u8]) -> Result<Line, LineFault>
    ensures { MatchResult result (IsLine line.now) (IsFault line.now) }
{
    if is_comment(line) {
        return Ok(Line::Comment);
    }
    match read_words(alloc, Words::of(line)) {
        Ok(read) => Ok(read),
        Err(misfit) => Err(fault_at(line, misfit)),
    }
}

/// Reads a line of a lane, given without its end: the lane's number, 1 to 8, and a call.
pub fn read_lane(alloc: Global, line: &[u8]) -> Result<(u8, Call), LineFault>
    ensures { MatchResult result (IsLaneLine line.now) (IsOutside SpellsLane line.now) }
{
    match read_lane_words(alloc, Words::of(line)) {
        Ok(read) => Ok(read),
        Err(misfit) => Err(fault_at(line, misfit)),
    }
}

fn is_comment(line: &[u8]) -> bool
    ensures { MatchBool result (IsComment line.now) (IsComment line.now → ⊥) }
{
    match line {
        [] => true,
        [first, ..] => *first == b'#',
    }
}

fn read_lane_words(alloc: Global, words: Words<'_>) -> Result<(u8, Call), Misfit>
    ensures { MatchResult result (SpellsLane (left words.entry)) (IsMisfit SpellsLane (left words.entry)) }
{
    let (lane, rest) = first::<Lane>(alloc, words)?;
    let call = read_call(alloc, rest)?;
    Ok((lane.0, call))
}

fn read_words(alloc: Global, words: Words<'_>) -> Result<Line, Misfit>
    ensures { MatchResult result (Spells (left words.entry)) (IsMisfit Spells (left words.entry)) }
{
    let Some((word, rest)) = words.split() else {
        return Err(Misfit::Unfit(0));
    };
    if let Some(clerk) = clerk_of(word) {
        let call = read_call(alloc, rest)?;
        return Ok(Line::Call(clerk, call));
    }
    match keyword_of(word) {
        Some(keyword) => read_keyword(alloc, keyword, rest),
        None => Err(Misfit::Unfit(words.len())),
    }
}

/// The fault of a line whose words are refused so.
pub fn fault_at(line: &[u8], misfit: Misfit) -> LineFault
    ensures { result ≡ fault_at line.now misfit }
{
    match misfit {
        Misfit::Unfit(left) => LineFault::At(column_left(line, left)),
        Misfit::NoMemory => LineFault::NoMemory,
    }
}
