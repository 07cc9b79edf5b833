// What stands behind the first word of a line of clocks and leases.
ghost use Rattle.std.specs.Prelude.{◌≤◌, MatchResult};
ghost use Rattle.ec_words.specs.Rows.{◌▸◌, Last};
ghost use Rattle.ec_words.specs.RowsLeft.{IsMisfit, Lacks, Takes, left};
ghost use Rattle.ec_words.specs.Spelling.{IsClerk, IsNumberIn};
ghost use Rattle.ec_lease_machine.specs.OfWords.Grammar.{ClockSays};

use crate::words::line::LeaseLine;
use crate::words::name::ClockWord;
use ec_base::ClerkId;
use ec_words::{Misfit, Words, clerk_of, no_more, number_in, one, two};
use std::alloc::Global;

// The greatest number of ticks of one line.
const MOST_TICKS: u64 = 1_000_000;

// What stands behind such a word, where clocks differ by at most so much.
pub(crate) fn read_clock_word(
    alloc: Global,
    most: u64,
    word: ClockWord,
    words: Words<'_>,
) -> Result<LeaseLine, Misfit>
    requires { most ≤ 1000000 }
    ensures { MatchResult result (ClockSays most word (left words.entry)) (IsMisfit (ClockSays most word) (left words.entry)) }
{
    match word {
        ClockWord::Tick => Ok(LeaseLine::Tick(one_number(words, 1, MOST_TICKS)?)),
        ClockWord::Skew => {
            let (clerk, skew) = clerk_and_number(words, 2 * most)?;
            Ok(LeaseLine::Skew(clerk, skew))
        }
        ClockWord::Grant => Ok(LeaseLine::Grant(one::<ClerkId>(alloc, words)?)),
        ClockWord::Hand => {
            let (clerk, nth) = two::<ClerkId, u32>(alloc, words)?;
            Ok(LeaseLine::Hand(clerk, nth))
        }
    }
}

// A clerk, and a number up to this one.
fn clerk_and_number(words: Words<'_>, most: u64) -> Result<(ClerkId, u64), Misfit>
    ensures { MatchResult result ((IsClerk ▸ Last (IsNumberIn 0 most)) (left words.entry)) (IsMisfit (IsClerk ▸ Last (IsNumberIn 0 most)) (left words.entry)) }
{
    let Some((word, rest)) = words.split() else {
        return Err(Misfit::Unfit(0));
    };
    let Some(clerk) = clerk_of(word) else {
        return Err(Misfit::Unfit(words.len()));
    };
    let number = one_number(rest, 0, most)?;
    Ok((clerk, number))
}

// The only word, a number within these bounds.
fn one_number(words: Words<'_>, least: u64, most: u64) -> Result<u64, Misfit>
    requires { least ≤ most }
    ensures { MatchResult result (Last (IsNumberIn least most) (left words.entry)) (IsMisfit (Last (IsNumberIn least most)) (left words.entry)) }
{
    let (number, rest) = first_number(words, least, most)?;
    no_more(rest)?;
    Ok(number)
}

// The first word, a number within these bounds, and the words behind it.
fn first_number(words: Words<'_>, least: u64, most: u64) -> Result<(u64, Words<'_>), Misfit>
    ensures { MatchResult result (λ taken. Takes (IsNumberIn least most) (left words.entry) taken.0 taken.1) (Lacks (IsNumberIn least most) (left words.entry)) }
{
    let Some((word, rest)) = words.split() else {
        return Err(Misfit::Unfit(0));
    };
    match number_in(word, least, most) {
        Some(number) => Ok((number, rest)),
        None => Err(Misfit::Unfit(words.len())),
    }
}
