// Clerks and numbers.
ghost use Rattle.std.specs.Prelude.{ℕ, MatchOption, MatchResult};
ghost use Rattle.ec_words.specs.RowsLeft.{Takes, Lacks, left};
ghost use Rattle.ec_words.specs.Spelling.{IsMode, IsSmallNumber};

use ec_base::{ClerkId, NoMemory};
use ec_words::{Misfit, Spelled, Words, clerk_of, mode_of, number_in};
use std::alloc::Global;
use std::marker::Model;

/// The letter of a clerk.
#[derive(Debug, Drop)]
pub(crate) struct Letter(pub(crate) ClerkId);

impl Model for Letter {
    ghost Value = { ℕ };

    ghost view = { λ a. a.0 };
}

impl Spelled for Letter {
    ghost use Rattle.ec_words.specs.Spelling.{IsClerk};
    ghost use Rattle.ec_words.specs.Examples.{a_clerk};

    ghost stands = { IsClerk };

    ghost example = { a_clerk };

    fn of_word(_alloc: Global, word: &[u8]) -> Result<Option<Letter>, NoMemory> {
        match clerk_of(word) {
            Some(clerk) => Ok(Some(Letter(clerk))),
            None => Ok(None),
        }
    }
}

/// The place of a name in a path.
#[derive(Clone, Copy, Debug, Drop)]
pub(crate) struct Place(pub(crate) u8);

impl Model for Place {
    ghost Value = { ℕ };

    ghost view = { λ a. a.0 };

    ghost inverse = { λ n. record { 0 = n } };
}

impl Spelled for Place {
    ghost use Rattle.ec_shown.specs.Spelling.{IsPlace};
    ghost use Rattle.ec_shown.specs.Examples.{a_place};

    ghost stands = { IsPlace };

    ghost example = { a_place };

    fn of_word(_alloc: Global, word: &[u8]) -> Result<Option<Place>, NoMemory> {
        match number_in(word, 0, u64::from(u8::MAX)) {
            Some(number) => Ok(Some(Place(number as u8))),
            None => Ok(None),
        }
    }
}

/// An owner that is shown.
#[derive(Clone, Copy, Debug, Drop)]
pub(crate) struct Owner(pub(crate) u32);

impl Model for Owner {
    ghost Value = { ℕ };

    ghost view = { λ a. a.0 };

    ghost inverse = { λ n. record { 0 = n } };
}

impl Spelled for Owner {
    ghost use Rattle.ec_shown.specs.Spelling.{IsOwner};
    ghost use Rattle.ec_shown.specs.Examples.{an_owner};

    ghost stands = { IsOwner };

    ghost example = { an_owner };

    fn of_word(_alloc: Global, word: &[u8]) -> Result<Option<Owner>, NoMemory> {
        match number_in(word, 1, u64::from(u32::MAX)) {
            Some(number) => Ok(Some(Owner(number as u32))),
            None => Ok(None),
        }
    }
}

/// The number of a script line.
pub(crate) fn line_number(word: &[u8]) -> Option<u32>
    ensures { MatchOption result ((n : ℕ) → IsSmallNumber word.now n → ⊥) (λ n. IsSmallNumber word.now n) }
{
    match number_in(word, 0, u64::from(u32::MAX)) {
        Some(number) => Some(number as u32),
        None => None,
    }
}

/// The mode that the first word stands for, and the words behind it.
pub(crate) fn first_mode<'a>(words: Words<'a>) -> Result<(u16, Words<'a>), Misfit>
    ensures { MatchResult result (λ taken. Takes IsMode (left words.entry) taken.0 taken.1) (Lacks IsMode (left words.entry)) }
{
    let Some((word, rest)) = words.split() else {
        return Err(Misfit::Unfit(0));
    };
    match mode_of(word) {
        Some(value) => Ok((value, rest)),
        None => Err(Misfit::Unfit(words.len())),
    }
}
