// The limits of a drill with leases, which are those of any drill.

/// A script has at most this many bytes.
pub const MOST_BYTES: usize = 1_048_576;

/// A script has at most this many lines.
pub const MOST_LINES: usize = 65_536;

/// After a line at most so many messages are delivered for each clerk that the script names, and once more so many.
pub const DELIVERIES: u64 = 4_096;

/// So many messages may be pending when a line has settled.
pub const MOST_PENDING: u64 = 4_096;
