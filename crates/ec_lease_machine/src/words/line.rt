// The grammar of a line of a script with leases.
ghost use Rattle.std.specs.Prelude.{◌≤◌, MatchOption, MatchResult};
ghost use Rattle.ec_words.specs.Words.{words_of};
ghost use Rattle.ec_words.specs.RowsLeft.{left};
ghost use Rattle.ec_lease_machine.specs.OfWords.First.{NoClockIn, StartsClock};
ghost use Rattle.ec_lease_machine.specs.OfWords.Grammar.{IsLeaseLine, IsLeaseFault};

use crate::words::name::{ClockWord, clock_word_of};
use crate::words::row::read_clock_word;
use ec_base::ClerkId;
use ec_script::{Line, LineFault, fault_at, read_line};
use ec_words::Words;
use std::alloc::Global;

/// A line of a script with leases.
#[derive(Drop)]
pub enum LeaseLine {
    /// One of a drill.
    Drill(Line),
    /// The server's clock goes on by so much, from 1 to 1,000,000.
    Tick(u64),
    /// The clerk's clock is above its least by so much.
    Skew(ClerkId, u64),
    /// A Lease is issued that the clerk doesn't receive.
    Grant(ClerkId),
    /// The clerk receives the nth Lease issued to it, from 1.
    Hand(ClerkId, u32),
}

/// Reads a line of a script with leases, given without its end. Clocks differ by at most `most`.
pub fn read_lease_line(alloc: Global, most: u64, line: &[u8]) -> Result<LeaseLine, LineFault>
    requires { most ≤ 1000000 }
    ensures { MatchResult result (IsLeaseLine most line.now) (IsLeaseFault most line.now) }
{
    match clock_words_of(line) {
        Some((word, rest)) => match read_clock_word(alloc, most, word, rest) {
            Ok(read) => Ok(read),
            Err(misfit) => Err(fault_at(line, misfit)),
        },
        None => match read_line(alloc, line) {
            Ok(read) => Ok(LeaseLine::Drill(read)),
            Err(fault) => Err(fault),
        },
    }
}

// The first word, where it's one of clocks and leases, and the words behind it.
fn clock_words_of(line: &[u8]) -> Option<(ClockWord, Words<'_>)>
    ensures { MatchOption result (NoClockIn (words_of line.now)) (λ p. StartsClock (words_of line.now) p.0 (left p.1)) }
{
    let Some((word, rest)) = Words::of(line).split() else {
        return None;
    };
    match clock_word_of(word) {
        Some(word) => Some((word, rest)),
        None => None,
    }
}
