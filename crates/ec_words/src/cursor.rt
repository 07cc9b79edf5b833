// The words of a line, taken off one by one.
ghost use Rattle.std.specs.Prelude.{◌≡◌, [], ◌∷◌, MatchBool, MatchOption};
ghost use Rattle.ec_words.specs.Words.{words_of};
ghost use Rattle.ec_words.specs.RowsLeft.{left, left_in, joined_len, column_left};

use crate::pieces::piece_len;
use ec_base::NoMemory;
use std::alloc::AllocFailed;

/// The words of a line from a certain one on.
#[derive(Clone, Copy, Debug, Drop)]
pub struct Words<'a> {
    // The bytes from the first of them on; none where no word is left.
    rest: Option<&'a [u8]>,
}

/// Why words were not read.
#[derive(Clone, Copy, Debug, Drop, PartialEq, Eq)]
pub enum Misfit {
    /// So many bytes of the line are left from the first word on that doesn't fit, none where a
    /// word is missing.
    Unfit(usize),
    NoMemory,
}

impl From<NoMemory> for Misfit {
    ghost use Rattle.ec_words.specs.declared.cursor.Misfit.TheVariants as misfit;

    ghost from_gives = { λ _ e. e ≡ misfit.NoMemory };

    fn from(_: NoMemory) -> Self {
        Misfit::NoMemory
    }
}

impl<T: Drop> From<AllocFailed<T>> for Misfit {
    ghost use Rattle.ec_words.specs.declared.cursor.Misfit.TheVariants as misfit;

    ghost from_gives = { λ _ e. e ≡ misfit.NoMemory };

    fn from(_: AllocFailed<T>) -> Self {
        Misfit::NoMemory
    }
}

impl<'a> Words<'a> {
    /// The words of a line.
    pub fn of(line: &'a [u8]) -> Words<'a>
        ensures { left result ≡ words_of line.now }
    {
        Words { rest: Some(line) }
    }

    /// The first word and those behind it.
    pub fn split(self) -> Option<(&'a [u8], Words<'a>)>
        ensures { MatchOption result (left self.entry ≡ []) (λ parts. left self.entry ≡ parts.0.now ∷ left parts.1) }
    {
        match self.rest {
            None => None,
            Some(bytes) => {
                let (word, rest) = split_word(bytes);
                Some((word, Words { rest }))
            }
        }
    }

    /// Whether no word is left.
    pub fn is_empty(self) -> bool
        ensures { MatchBool result (left self.entry ≡ []) (left self.entry ≡ [] → ⊥) }
    {
        match self.rest {
            None => true,
            Some(_) => false,
        }
    }

    /// How many bytes the words have, with the spaces between them.
    pub fn len(self) -> usize
        ensures { result ≡ joined_len (left self.entry) }
    {
        match self.rest {
            Some(bytes) => bytes.len(),
            None => 0,
        }
    }
}

// The first word of a line, and the bytes behind its space, if there is one.
fn split_word(bytes: &[u8]) -> (&[u8], Option<&[u8]>)
    ensures { words_of bytes.now ≡ result.0.now ∷ left_in result.1 }
{
    let at = piece_len(bytes, b' ');
    if at < bytes.len() {
        (&bytes[..at], Some(&bytes[at + 1..]))
    } else {
        (bytes, None)
    }
}

/// The place, from 1, of the word from which on so many bytes of the line are left. A place from
/// 2^32 on is shown as 2^32 - 1.
pub fn column_left(line: &[u8], left: usize) -> u32
    ensures { result ≡ column_left line.now left }
{
    (line.len() + 1).saturating_sub(left).min(u32::MAX as usize) as u32
}
