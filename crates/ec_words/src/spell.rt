// What the words of a line stand for.
ghost use Rattle.std.specs.Prelude.{◌≡◌, ℕ, MatchOption};
ghost use Rattle.ec_words.specs.Spelling.{IsClerk, IsNumberIn};

use crate::escape::text_of;
use crate::name::{Verb, choice_of, kind_of, verb_of};
use crate::number::{mode_of, number_in};
use crate::spelled::Spelled;
use ec_base::{ClerkId, List as ByteList, NoMemory, OpNo, Path, PathFault};
use ec_disk::Choice;
use ec_plain::MAX_READ_BYTES;
use ec_volume::MAX_WRITE_BYTES;
use ec_wire::MsgKind;
use std::alloc::Global;
use std::marker::Model;

// The last of the numbers of device calls that a stop is armed for.
const MAX_ARMED: u64 = 1_000_000;

// Lanes have the numbers from 1 to this.
const MAX_LANE: u64 = 8;

impl Spelled for ClerkId {
    ghost use Rattle.ec_words.specs.Spelling.{IsClerk};
    ghost use Rattle.ec_words.specs.Examples.{a_clerk};

    ghost stands = { IsClerk };

    ghost example = { a_clerk };

    fn of_word(_alloc: Global, word: &[u8]) -> Result<Option<ClerkId>, NoMemory> {
        Ok(clerk_of(word))
    }
}

/// The clerk that the word names.
pub fn clerk_of(word: &[u8]) -> Option<ClerkId>
    ensures { MatchOption result ((c : ℕ) → IsClerk word.now c → ⊥) (λ c. IsClerk word.now c) }
{
    match word {
        [letter] => ClerkId::new(letter.checked_sub(b'A')?),
        _ => None,
    }
}

// A place, a length, an owner, or the place of a message among its like.
impl Spelled for u32 {
    ghost use Rattle.ec_words.specs.Spelling.{IsSmallNumber};
    ghost use Rattle.ec_words.specs.Examples.{a_small_number};

    ghost stands = { IsSmallNumber };

    ghost example = { a_small_number };

    fn of_word(_alloc: Global, word: &[u8]) -> Result<Option<u32>, NoMemory> {
        match number_in(word, 0, u64::from(u32::MAX)) {
            Some(number) => Ok(Some(number as u32)),
            None => Ok(None),
        }
    }
}

// A stamp.
impl Spelled for u64 {
    ghost use Rattle.ec_words.specs.Spelling.{IsNumber};
    ghost use Rattle.ec_words.specs.Examples.{a_number};

    ghost stands = { IsNumber };

    ghost example = { a_number };

    fn of_word(_alloc: Global, word: &[u8]) -> Result<Option<u64>, NoMemory> {
        Ok(number_in(word, 0, u64::MAX))
    }
}

impl Spelled for OpNo {
    ghost use Rattle.ec_words.specs.Spelling.{IsNumber};
    ghost use Rattle.ec_words.specs.Examples.{a_number};

    ghost stands = { IsNumber };

    ghost example = { a_number };

    fn of_word(_alloc: Global, word: &[u8]) -> Result<Option<OpNo>, NoMemory> {
        match number_in(word, 0, u64::MAX) {
            Some(number) => Ok(Some(OpNo(number))),
            None => Ok(None),
        }
    }
}

/// How many bytes a read asks for.
#[derive(Clone, Copy, Debug, Drop)]
pub struct Count(pub u32);

impl Model for Count {
    ghost Value = { ℕ };

    ghost view = { λ a. a.0 };

    ghost inverse = { λ n. record { 0 = n } };
}

impl Spelled for Count {
    ghost use Rattle.ec_words.specs.Spelling.{IsCount};
    ghost use Rattle.ec_words.specs.Examples.{a_count};

    ghost stands = { IsCount };

    ghost example = { a_count };

    fn of_word(_alloc: Global, word: &[u8]) -> Result<Option<Count>, NoMemory> {
        match number_in(word, 0, u64::from(MAX_READ_BYTES)) {
            Some(number) => Ok(Some(Count(number as u32))),
            None => Ok(None),
        }
    }
}

/// For which device call from now on a stop is armed.
#[derive(Clone, Copy, Debug, Drop)]
pub struct Armed(pub u64);

impl Model for Armed {
    ghost Value = { ℕ };

    ghost view = { λ a. a.0 };

    ghost inverse = { λ n. record { 0 = n } };
}

impl Spelled for Armed {
    ghost use Rattle.ec_words.specs.Spelling.{IsArmed};
    ghost use Rattle.ec_words.specs.Examples.{an_armed};

    ghost stands = { IsArmed };

    ghost example = { an_armed };

    fn of_word(_alloc: Global, word: &[u8]) -> Result<Option<Armed>, NoMemory> {
        match number_in(word, 1, MAX_ARMED) {
            Some(number) => Ok(Some(Armed(number))),
            None => Ok(None),
        }
    }
}

/// A lane of a mount.
#[derive(Debug, Drop)]
pub struct Lane(pub u8);

impl Model for Lane {
    ghost Value = { ℕ };

    ghost view = { λ a. a.0 };

    ghost inverse = { λ n. record { 0 = n } };
}

impl Spelled for Lane {
    ghost use Rattle.ec_words.specs.Spelling.{IsLane};
    ghost use Rattle.ec_words.specs.Examples.{a_lane};

    ghost stands = { IsLane };

    ghost example = { a_lane };

    fn of_word(_alloc: Global, word: &[u8]) -> Result<Option<Lane>, NoMemory> {
        match number_in(word, 1, MAX_LANE) {
            Some(number) => Ok(Some(Lane(number as u8))),
            None => Ok(None),
        }
    }
}

/// The mode of a file or directory.
#[derive(Clone, Copy, Debug, Drop)]
pub struct Mode(pub u16);

impl Model for Mode {
    ghost Value = { ℕ };

    ghost view = { λ a. a.0 };

    ghost inverse = { λ n. record { 0 = n } };
}

impl Spelled for Mode {
    ghost use Rattle.ec_words.specs.Spelling.{IsMode};
    ghost use Rattle.ec_words.specs.Examples.{a_mode};

    ghost stands = { IsMode };

    ghost example = { a_mode };

    fn of_word(_alloc: Global, word: &[u8]) -> Result<Option<Mode>, NoMemory> {
        match mode_of(word) {
            Some(mode) => Ok(Some(Mode(mode))),
            None => Ok(None),
        }
    }
}

// The bytes of a write.
impl Spelled for ByteList<u8> {
    ghost use Rattle.ec_words.specs.Spelling.{IsText};
    ghost use Rattle.ec_words.specs.Examples.{a_text};

    ghost stands = { IsText };

    ghost example = { a_text };

    fn of_word(alloc: Global, word: &[u8]) -> Result<Option<ByteList<u8>>, NoMemory> {
        let Some(text) = text_of(alloc, word)? else {
            return Ok(None);
        };
        if text.is_empty() || text.len() > MAX_WRITE_BYTES {
            return Ok(None);
        }
        Ok(Some(ByteList::of(text)))
    }
}

impl Spelled for Path {
    ghost use Rattle.ec_words.specs.Spelling.{IsPathText};
    ghost use Rattle.ec_words.specs.Examples.{a_path};

    ghost stands = { IsPathText };

    ghost example = { a_path };

    fn of_word(alloc: Global, word: &[u8]) -> Result<Option<Path>, NoMemory> {
        let Some(text) = text_of(alloc, word)? else {
            return Ok(None);
        };
        match Path::read(alloc, &text) {
            Ok(path) => Ok(Some(path)),
            Err(PathFault::NoMemory) => Err(NoMemory),
            Err(_) => Ok(None),
        }
    }
}

impl Spelled for MsgKind {
    ghost use Rattle.ec_words.specs.Spelling.{IsKind};
    ghost use Rattle.ec_words.specs.Examples.{a_kind};

    ghost stands = { IsKind };

    ghost example = { a_kind };

    fn of_word(_alloc: Global, word: &[u8]) -> Result<Option<MsgKind>, NoMemory> {
        Ok(kind_of(word))
    }
}

impl Spelled for Choice {
    ghost use Rattle.ec_words.specs.Spelling.{IsChoice};
    ghost use Rattle.ec_words.specs.Examples.{a_choice};

    ghost stands = { IsChoice };

    ghost example = { a_choice };

    fn of_word(_alloc: Global, word: &[u8]) -> Result<Option<Choice>, NoMemory> {
        Ok(choice_of(word))
    }
}

impl Spelled for Verb {
    ghost use Rattle.ec_words.specs.Spelling.{IsVerb};
    ghost use Rattle.ec_words.specs.Examples.{a_verb};

    ghost stands = { IsVerb };

    ghost example = { a_verb };

    fn of_word(_alloc: Global, word: &[u8]) -> Result<Option<Verb>, NoMemory> {
        Ok(verb_of(word))
    }
}
