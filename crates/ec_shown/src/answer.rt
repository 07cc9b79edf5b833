// What became of a call, by the words behind `->`.
ghost use Rattle.std.specs.Prelude.{◌≡◌, MatchResult};
ghost use Rattle.ec_words.specs.Rows.{End, ◌⊳◌, ◌makes◌};
ghost use Rattle.ec_words.specs.RowsLeft.{IsMisfit, left};
ghost use Rattle.ec_words.specs.Spelling.{IsNumber};
ghost use Rattle.ec_shown.specs.Spelling.{IsNameText, IsSaid, IsWhy};
ghost use Rattle.ec_shown.specs.Rows.{Times};
ghost use Rattle.ec_shown.specs.Answers.{TextOf, Refuses, Sized, Stamped, Moded, Properties, shown_owner, stat_reply, Tells, SpellsOutcome};

use crate::list::read_list;
use crate::name::{Said, Why, first_kind};
use crate::number::{Owner, Place, first_mode};
use crate::row::{behind, tail};
use crate::text::{NameText, first_text};
use ec_base::{List as Items, Name, OpNo};
use ec_history::Answer;
use ec_plain::{Refusal, Reply};
use ec_volume::Kind;
use ec_words::{Misfit, Words, first, no_more, one, two};
use std::alloc::Global;

/// What became of a call.
#[derive(Drop)]
pub(crate) enum Outcome {
    Waits,
    /// The answer, and the number of its operation, if it issued one.
    Answered(Answer, Option<OpNo>),
}

/// What became of a call, from `->` on.
pub(crate) fn read_outcome(alloc: Global, words: Words<'_>) -> Result<Outcome, Misfit>
    ensures { MatchResult result (SpellsOutcome (left words.entry)) (IsMisfit SpellsOutcome (left words.entry)) }
{
    let rest = behind(words, b"->")?;
    let outcome = read_said(alloc, rest)?;
    Ok(outcome)
}

/// What stands behind `->`.
pub(crate) fn read_said(alloc: Global, words: Words<'_>) -> Result<Outcome, Misfit>
    ensures { MatchResult result ((IsSaid ⊳ Tells) (left words.entry)) (IsMisfit (IsSaid ⊳ Tells) (left words.entry)) }
{
    let (said, rest) = first::<Said>(alloc, words)?;
    let outcome = read_told(alloc, said, rest)?;
    Ok(outcome)
}

// What stands behind the first word of an answer.
fn read_told(alloc: Global, said: Said, words: Words<'_>) -> Result<Outcome, Misfit>
    ensures { MatchResult result (Tells said (left words.entry)) (IsMisfit (Tells said) (left words.entry)) }
{
    match said {
        Said::Waits => {
            no_more(words)?;
            Ok(Outcome::Waits)
        }
        Said::Ok => {
            let op = tail::<OpNo>(alloc, words, b"op")?;
            Ok(Outcome::Answered(Answer::Reply(Reply::Ok), op))
        }
        Said::Data => {
            let bytes = read_data(alloc, words)?;
            Ok(Outcome::Answered(Answer::Reply(Reply::Data(bytes)), None))
        }
        Said::Stat => {
            let reply = read_stat(alloc, words)?;
            Ok(Outcome::Answered(Answer::Reply(reply), None))
        }
        Said::Names => {
            let names = read_names(alloc, words)?;
            Ok(Outcome::Answered(Answer::Reply(Reply::Names(names)), None))
        }
        Said::Refused => {
            let why = read_refusal(alloc, words)?;
            Ok(Outcome::Answered(Answer::Reply(Reply::Refused(why)), None))
        }
        Said::NoRoom => {
            let (live, reserved) = two::<u32, u32>(alloc, words)?;
            Ok(Outcome::Answered(Answer::NoRoom(live, reserved), None))
        }
        Said::Lost => {
            let ops = read_list(alloc, words)?;
            Ok(Outcome::Answered(Answer::Lost(ops), None))
        }
    }
}

// The length of a text, and the text.
fn read_data(alloc: Global, words: Words<'_>) -> Result<Items<u8>, Misfit>
    ensures { MatchResult result ((IsNumber ⊳ TextOf) (left words.entry)) (IsMisfit (IsNumber ⊳ TextOf) (left words.entry)) }
{
    let (len, rest) = first::<u64>(alloc, words)?;
    let bytes = read_text(alloc, len, rest)?;
    Ok(bytes)
}

fn read_text(alloc: Global, len: u64, words: Words<'_>) -> Result<Items<u8>, Misfit>
    ensures { MatchResult result (TextOf len (left words.entry)) (IsMisfit (TextOf len) (left words.entry)) }
{
    if len == 0 {
        no_more(words)?;
        return Ok(Items::of(Vec::new(alloc)));
    }
    let (bytes, rest) = first_text(alloc, len, words)?;
    no_more(rest)?;
    Ok(Items::of(bytes))
}

fn read_stat(alloc: Global, words: Words<'_>) -> Result<Reply, Misfit>
    ensures { MatchResult result ((Properties makes stat_reply) (left words.entry)) (IsMisfit Properties (left words.entry)) }
{
    let (kind, (mode, (stamp, (size, owner)))) = properties(alloc, words)?;
    Ok(Reply::Stat {
        kind,
        mode,
        stamp,
        owner: shown_owner(owner),
        size,
    })
}

fn properties(
    alloc: Global,
    words: Words<'_>,
) -> Result<(Kind, (u16, (u64, (u32, Option<Owner>)))), Misfit>
    ensures { MatchResult result (Properties (left words.entry)) (IsMisfit Properties (left words.entry)) }
{
    let (kind, rest) = first_kind(words)?;
    let others = moded(alloc, rest)?;
    Ok((kind, others))
}

// A mode, a stamp, a size, and the owner where it is shown.
fn moded(alloc: Global, words: Words<'_>) -> Result<(u16, (u64, (u32, Option<Owner>))), Misfit>
    ensures { MatchResult result (Moded (left words.entry)) (IsMisfit Moded (left words.entry)) }
{
    let (mode, rest) = first_mode(words)?;
    let others = stamped(alloc, rest)?;
    Ok((mode, others))
}

fn stamped(alloc: Global, words: Words<'_>) -> Result<(u64, (u32, Option<Owner>)), Misfit>
    ensures { MatchResult result (Stamped (left words.entry)) (IsMisfit Stamped (left words.entry)) }
{
    let (stamp, rest) = first::<u64>(alloc, words)?;
    let others = sized(alloc, rest)?;
    Ok((stamp, others))
}

fn sized(alloc: Global, words: Words<'_>) -> Result<(u32, Option<Owner>), Misfit>
    ensures { MatchResult result (Sized (left words.entry)) (IsMisfit Sized (left words.entry)) }
{
    let (size, rest) = first::<u32>(alloc, words)?;
    let owner = tail::<Owner>(alloc, rest, b"owner")?;
    Ok((size, owner))
}

fn shown_owner(owner: Option<Owner>) -> u32
    ensures { result ≡ shown_owner owner }
{
    match owner {
        Some(owner) => owner.0,
        None => 0,
    }
}

// How many names, and the names.
fn read_names(alloc: Global, words: Words<'_>) -> Result<Items<Name>, Misfit>
    ensures { MatchResult result ((IsNumber ⊳ Times IsNameText) (left words.entry)) (IsMisfit (IsNumber ⊳ Times IsNameText) (left words.entry)) }
{
    let (count, rest) = first::<u64>(alloc, words)?;
    let names = so_many_names(alloc, count, rest)?;
    Ok(Items::of(names))
}

fn so_many_names(alloc: Global, count: u64, words: Words<'_>) -> Result<Vec<Name>, Misfit>
    ensures { MatchResult result (λ names. Times IsNameText count (left words.entry) names.items) (IsMisfit (Times IsNameText count) (left words.entry)) }
{
    let mut names = Vec::new(alloc);
    let mut rest = words;
    let mut missing = count;
    'names: while missing > 0 {
        let (name, others) = first::<NameText>(alloc, rest)?;
        names.push(name.0)?;
        rest = others;
        missing -= 1;
    }
    no_more(rest)?;
    Ok(names)
}

fn read_refusal(alloc: Global, words: Words<'_>) -> Result<Refusal, Misfit>
    ensures { MatchResult result ((IsWhy ⊳ Refuses) (left words.entry)) (IsMisfit (IsWhy ⊳ Refuses) (left words.entry)) }
{
    let (why, rest) = first::<Why>(alloc, words)?;
    let refusal = read_why(alloc, why, rest)?;
    Ok(refusal)
}

// What stands behind the name of a refusal.
fn read_why(alloc: Global, why: Why, words: Words<'_>) -> Result<Refusal, Misfit>
    ensures { MatchResult result (Refuses why (left words.entry)) (IsMisfit (Refuses why) (left words.entry)) }
{
    match why {
        Why::NotFound => {
            let place = one::<Place>(alloc, words)?;
            Ok(Refusal::NotFound(place.0))
        }
        Why::NotDir => {
            let place = one::<Place>(alloc, words)?;
            Ok(Refusal::NotDir(place.0))
        }
        Why::IsDir => alone(words, Refusal::IsDir),
        Why::Exists => alone(words, Refusal::Exists),
        Why::NotEmpty => alone(words, Refusal::NotEmpty),
        Why::TooLong => alone(words, Refusal::TooLong),
        Why::DirFull => alone(words, Refusal::DirFull),
        Why::Root => alone(words, Refusal::Root),
        Why::Loop => alone(words, Refusal::Loop),
    }
}

// This refusal, with no further word.
fn alone(words: Words<'_>, refusal: Refusal) -> Result<Refusal, Misfit>
    ensures { MatchResult result ((End makes λ u. refusal) (left words.entry)) (IsMisfit (End makes λ u. refusal) (left words.entry)) }
{
    no_more(words)?;
    Ok(refusal)
}
