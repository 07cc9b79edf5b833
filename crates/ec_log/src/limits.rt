// The limits of a log.

/// So many operations of a clerk may be undurable.
pub const MAX_UNDURABLE: usize = 65_536;

/// A batch has at most so many operations.
pub const MAX_BATCH_OPS: usize = 64;

/// So many batches may be under way, counted from the least one on.
pub const WINDOW_SIZE: u64 = 8;
