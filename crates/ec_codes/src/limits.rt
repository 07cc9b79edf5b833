// The limits of images.

/// A file has at most this many bytes.
pub const MAX_FILE_BYTES: usize = 65_536;

/// A directory has at most this many entries.
pub const MAX_ENTRIES: u8 = 128;
