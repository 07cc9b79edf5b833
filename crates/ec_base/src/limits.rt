// The limits of names, paths, clerks and counters.

/// A name has at most this many bytes.
pub const MAX_NAME_BYTES: usize = 64;

/// A path has at most this many names.
pub const MAX_PATH_NAMES: u8 = 16;

/// Clerks have the numbers from 0 to below this one.
pub const CLERK_COUNT: u8 = 16;

/// A counter stops at this value.
pub const LAST_COUNTER: u64 = 1 << 62;
