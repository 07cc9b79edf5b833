// Words of transcript lines that are names.
ghost use Rattle.std.specs.Prelude.{◌≡◌, MatchOption, MatchResult};
ghost use Rattle.ec_base.specs.declared.counter.Counter.{Counter as Counters};
ghost use Rattle.ec_history.specs.declared.shown.LimitName.{LimitName as LimitNames};
ghost use Rattle.ec_volume.specs.declared.image.Kind.{Kind as Kinds};
ghost use Rattle.ec_words.specs.RowsLeft.{Takes, Lacks, left};
ghost use Rattle.ec_shown.specs.declared.name.Head.{Head as Heads};
ghost use Rattle.ec_shown.specs.declared.name.Said.{Said as Saids};
ghost use Rattle.ec_shown.specs.declared.name.Why.{Why as Whys};
ghost use Rattle.ec_shown.specs.Spelling.{IsHead, IsSaid, IsWhy, IsKindName, IsLimit, IsCounter};

use ec_base::{Counter, NoMemory};
use ec_history::LimitName;
use ec_volume::Kind;
use ec_words::{Misfit, Spelled, Words, is_word};
use std::alloc::Global;

/// What a line without a call begins with.
#[derive(Clone, Copy, Debug, Drop, PartialEq, Eq)]
pub(crate) enum Head {
    Durable,
    Ended,
    Unseen,
    Told,
    Crashed,
    Stopped,
    Started,
    Nothing,
    Unsettled,
    Bad,
    Disk,
    Limit,
    Spent,
}

/// What stands behind `->`: `waits`, or the first word of an answer.
#[derive(Clone, Copy, Debug, Drop, PartialEq, Eq)]
pub(crate) enum Said {
    Waits,
    Ok,
    Data,
    Stat,
    Names,
    Refused,
    NoRoom,
    Lost,
}

/// The name of a refusal.
#[derive(Clone, Copy, Debug, Drop, PartialEq, Eq)]
pub(crate) enum Why {
    NotFound,
    NotDir,
    IsDir,
    Exists,
    NotEmpty,
    TooLong,
    DirFull,
    Root,
    Loop,
}

/// What a line without a call begins with, by the word that names it.
pub(crate) fn head_of(word: &[u8]) -> Option<Head>
    ensures { MatchOption result ((x : Heads) → IsHead word.now x → ⊥) (λ x. IsHead word.now x) }
{
    if is_word(word, b"durable") {
        Some(Head::Durable)
    } else if is_word(word, b"ended") {
        Some(Head::Ended)
    } else if is_word(word, b"unseen") {
        Some(Head::Unseen)
    } else if is_word(word, b"told") {
        Some(Head::Told)
    } else if is_word(word, b"crashed") {
        Some(Head::Crashed)
    } else if is_word(word, b"stopped") {
        Some(Head::Stopped)
    } else if is_word(word, b"started") {
        Some(Head::Started)
    } else if is_word(word, b"none") {
        Some(Head::Nothing)
    } else if is_word(word, b"unsettled") {
        Some(Head::Unsettled)
    } else if is_word(word, b"bad") {
        Some(Head::Bad)
    } else if is_word(word, b"disk") {
        Some(Head::Disk)
    } else if is_word(word, b"limit") {
        Some(Head::Limit)
    } else if is_word(word, b"spent") {
        Some(Head::Spent)
    } else {
        None
    }
}

fn said_of(word: &[u8]) -> Option<Said>
    ensures { MatchOption result ((x : Saids) → IsSaid word.now x → ⊥) (λ x. IsSaid word.now x) }
{
    if is_word(word, b"waits") {
        Some(Said::Waits)
    } else if is_word(word, b"ok") {
        Some(Said::Ok)
    } else if is_word(word, b"data") {
        Some(Said::Data)
    } else if is_word(word, b"stat") {
        Some(Said::Stat)
    } else if is_word(word, b"names") {
        Some(Said::Names)
    } else if is_word(word, b"refused") {
        Some(Said::Refused)
    } else if is_word(word, b"noroom") {
        Some(Said::NoRoom)
    } else if is_word(word, b"lost") {
        Some(Said::Lost)
    } else {
        None
    }
}

fn why_of(word: &[u8]) -> Option<Why>
    ensures { MatchOption result ((x : Whys) → IsWhy word.now x → ⊥) (λ x. IsWhy word.now x) }
{
    if is_word(word, b"NotFound") {
        Some(Why::NotFound)
    } else if is_word(word, b"NotDir") {
        Some(Why::NotDir)
    } else if is_word(word, b"IsDir") {
        Some(Why::IsDir)
    } else if is_word(word, b"Exists") {
        Some(Why::Exists)
    } else if is_word(word, b"NotEmpty") {
        Some(Why::NotEmpty)
    } else if is_word(word, b"TooLong") {
        Some(Why::TooLong)
    } else if is_word(word, b"DirFull") {
        Some(Why::DirFull)
    } else if is_word(word, b"Root") {
        Some(Why::Root)
    } else if is_word(word, b"Loop") {
        Some(Why::Loop)
    } else {
        None
    }
}

fn kind_of(word: &[u8]) -> Option<Kind>
    ensures { MatchOption result ((x : Kinds) → IsKindName word.now x → ⊥) (λ x. IsKindName word.now x) }
{
    if is_word(word, b"file") {
        Some(Kind::File)
    } else if is_word(word, b"dir") {
        Some(Kind::Dir)
    } else {
        None
    }
}

fn limit_of(word: &[u8]) -> Option<LimitName>
    ensures { MatchOption result ((x : LimitNames) → IsLimit word.now x → ⊥) (λ x. IsLimit word.now x) }
{
    if is_word(word, b"bytes") {
        Some(LimitName::Bytes)
    } else if is_word(word, b"lines") {
        Some(LimitName::Lines)
    } else if is_word(word, b"pending") {
        Some(LimitName::Pending)
    } else {
        None
    }
}

fn counter_of(word: &[u8]) -> Option<Counter>
    ensures { MatchOption result ((x : Counters) → IsCounter word.now x → ⊥) (λ x. IsCounter word.now x) }
{
    if is_word(word, b"Boot") {
        Some(Counter::Boot)
    } else if is_word(word, b"Session") {
        Some(Counter::Session)
    } else if is_word(word, b"Epoch") {
        Some(Counter::Epoch)
    } else if is_word(word, b"Number") {
        Some(Counter::Number)
    } else if is_word(word, b"Op") {
        Some(Counter::Op)
    } else if is_word(word, b"Batch") {
        Some(Counter::Batch)
    } else if is_word(word, b"CallNo") {
        Some(Counter::CallNo)
    } else if is_word(word, b"Ask") {
        Some(Counter::Ask)
    } else if is_word(word, b"Pass") {
        Some(Counter::Pass)
    } else if is_word(word, b"Id") {
        Some(Counter::Id)
    } else if is_word(word, b"Round") {
        Some(Counter::Round)
    } else {
        None
    }
}

/// The kind of object that the first word names, and the words behind it.
pub(crate) fn first_kind<'a>(words: Words<'a>) -> Result<(Kind, Words<'a>), Misfit>
    ensures { MatchResult result (λ taken. Takes IsKindName (left words.entry) taken.0 taken.1) (Lacks IsKindName (left words.entry)) }
{
    let Some((word, rest)) = words.split() else {
        return Err(Misfit::Unfit(0));
    };
    match kind_of(word) {
        Some(value) => Ok((value, rest)),
        None => Err(Misfit::Unfit(words.len())),
    }
}

/// The limit that the first word names, and the words behind it.
pub(crate) fn first_limit<'a>(words: Words<'a>) -> Result<(LimitName, Words<'a>), Misfit>
    ensures { MatchResult result (λ taken. Takes IsLimit (left words.entry) taken.0 taken.1) (Lacks IsLimit (left words.entry)) }
{
    let Some((word, rest)) = words.split() else {
        return Err(Misfit::Unfit(0));
    };
    match limit_of(word) {
        Some(value) => Ok((value, rest)),
        None => Err(Misfit::Unfit(words.len())),
    }
}

/// The counter that the first word names, and the words behind it.
pub(crate) fn first_counter<'a>(words: Words<'a>) -> Result<(Counter, Words<'a>), Misfit>
    ensures { MatchResult result (λ taken. Takes IsCounter (left words.entry) taken.0 taken.1) (Lacks IsCounter (left words.entry)) }
{
    let Some((word, rest)) = words.split() else {
        return Err(Misfit::Unfit(0));
    };
    match counter_of(word) {
        Some(value) => Ok((value, rest)),
        None => Err(Misfit::Unfit(words.len())),
    }
}

impl Spelled for Said {
    ghost use Rattle.ec_shown.specs.Spelling.{IsSaid};
    ghost use Rattle.ec_shown.specs.Examples.{a_said};

    ghost stands = { IsSaid };

    ghost example = { a_said };

    fn of_word(_alloc: Global, word: &[u8]) -> Result<Option<Said>, NoMemory> {
        Ok(said_of(word))
    }
}

impl Spelled for Why {
    ghost use Rattle.ec_shown.specs.Spelling.{IsWhy};
    ghost use Rattle.ec_shown.specs.Examples.{a_why};

    ghost stands = { IsWhy };

    ghost example = { a_why };

    fn of_word(_alloc: Global, word: &[u8]) -> Result<Option<Why>, NoMemory> {
        Ok(why_of(word))
    }
}
