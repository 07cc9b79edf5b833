// The limits of records.

// A batch has from 1 to this many operations.
pub(crate) const MAX_BATCH_OPS: u8 = 64;
