// The two sides of a disk.
ghost use Rattle.std.specs.Prelude.{◌≡◌};
ghost use Rattle.ec_journal.specs.OfLayout.Places as place;
ghost use Rattle.ec_journal.specs.OfLayout.Sides as sides;

/// Bytes of a side's journal.
pub const JOURNAL_BYTES: u64 = 2_097_152;

/// Bytes for a side's table, which stands behind its journal.
pub const TABLE_BYTES: u64 = 65_536;

/// The place of the select byte.
pub const SELECT_AT: u64 = 12;

// The place of the first journal.
const JOURNALS_AT: u64 = 4_096;

/// A journal and a table. An even select byte picks one side, an odd one the other.
#[derive(Clone, Copy, Debug, Drop, PartialEq, Eq)]
pub enum Side {
    Even,
    Odd,
}

impl Side {
    /// The side that this select byte picks.
    pub fn picked_by(select: u8) -> Side
        ensures { result ≡ place.side_of select }
    {
        if select % 2 == 0 {
            Side::Even
        } else {
            Side::Odd
        }
    }

    /// The select byte that a checkpoint writes to pick this side.
    pub fn select_byte(self) -> u8
        ensures { result ≡ sides.select_byte self }
    {
        match self {
            Side::Even => 0,
            Side::Odd => 1,
        }
    }

    pub fn other(self) -> Side
        ensures { result ≡ sides.other self }
    {
        match self {
            Side::Even => Side::Odd,
            Side::Odd => Side::Even,
        }
    }

    /// The place of this side's journal.
    pub fn journal_at(self) -> u64
        ensures { result ≡ place.journal_at self }
    {
        match self {
            Side::Even => JOURNALS_AT,
            Side::Odd => JOURNALS_AT + JOURNAL_BYTES + TABLE_BYTES,
        }
    }

    /// The place of this side's table.
    pub fn table_at(self) -> u64
        ensures { result ≡ place.table_at self }
    {
        self.journal_at() + JOURNAL_BYTES
    }
}
