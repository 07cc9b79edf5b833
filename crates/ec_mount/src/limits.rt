// The limits of a script.

/// A script has at most this many bytes.
pub const MOST_BYTES: usize = 1_048_576;

/// A script has at most this many lines.
pub const MOST_LINES: usize = 65_536;
