// What the first 16 bytes of a disk tell.
ghost use Rattle.ec_journal.specs.OfLayout.Reading.{IsHead};

use crate::layout::head::{FIRST_WORD, FORM};
use crate::layout::side::Side;

/// The fields of a disk's first 16 bytes.
#[derive(Clone, Copy, Debug, Drop, PartialEq, Eq)]
pub struct Head {
    pub has_first_word: bool,
    pub max_objects: u32,
    /// The side that the select byte picks.
    pub side: Side,
    /// Whether the bytes behind the select byte say that the layout is this one.
    pub has_form: bool,
}

impl Head {
    ghost use Rattle.ec_journal.specs.OfLayout.Reading.{IsHead};

    pub fn read(bytes: &[u8; 16]) -> Head
        ensures { IsHead bytes.now result }
    {
        Head {
            has_first_word: bytes[..8] == FIRST_WORD[..],
            max_objects: u32::from_be_bytes([bytes[8], bytes[9], bytes[10], bytes[11]]),
            side: Side::picked_by(bytes[12]),
            has_form: bytes[13..] == FORM[..],
        }
    }
}
