// The limits of tables.
use ec_journal::layout::TABLE_BYTES;

// The bytes of a table's length.
const LENGTH_BYTES: u64 = 4;

// The bytes of a state in a table of version 1, behind the length.
pub(crate) const MAX_OLD_STATE: u32 = (TABLE_BYTES - LENGTH_BYTES) as u32;

// The bytes of a state in a table of version 2, behind a byte 2 and the length.
pub(crate) const MAX_NEW_STATE: u32 = MAX_OLD_STATE - 1;
