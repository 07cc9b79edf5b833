// The call lines so far, by their numbers.
ghost use Rattle.std.specs.Prelude.{◌≡◌, ◌==◌, ℕ, Some, nat_eq, if◌then◌else◌, OnOk};
ghost use Rattle.std.specs.HashMap.{get};
ghost use Rattle.ec_lines.specs.Index.{called_next};

use ec_base::NoMemory;
use std::collections::HashMap;

/// What the lines so far show of the call of one number.
#[derive(Clone, Copy, Debug, Drop, PartialEq, Eq)]
pub struct CallLines {
    /// The place of its first line, from 0.
    pub first: usize,
    /// The start that ran there, or came next.
    pub boot: u64,
    /// The place, from 1, of the last line above it that gives an entry of this start, or 0.
    pub begun: u32,
    pub is_answered: bool,
}

pub type Calls = HashMap<u32, CallLines>;

/// What is known of the call of this number.
pub fn find(calls: &Calls, number: u32) -> Option<CallLines>
    ensures { result ≡ get nat_eq calls.now number }
{
    calls.get(&number).copied()
}

/// Notes what is known of the call of this number.
pub fn put(calls: &mut Calls, number: u32, lines: CallLines) -> Result<(), NoMemory>
    ensures { OnOk result ((q : ℕ) → get nat_eq calls.new q ≡ (if number == q then Some lines else get nat_eq calls.old q)) }
{
    match calls.insert(number, lines) {
        Ok(_) => Ok(()),
        Err(_) => Err(NoMemory),
    }
}

/// What is known of a call behind one more of its lines, where its clerk's start has this number
/// and its last entry this place.
pub fn next(known: Option<CallLines>, at: usize, boot: u64, last: u32, answers: bool) -> CallLines
    ensures { result ≡ called_next known at boot last answers }
{
    match known {
        Some(lines) => CallLines {
            is_answered: if answers { true } else { lines.is_answered },
            ..lines
        },
        None => CallLines {
            first: at,
            boot,
            begun: last,
            is_answered: answers,
        },
    }
}
