// The limits of files, directories, modes and updates, and the modes of new objects.
use ec_base::MAX_PATH_NAMES;

/// A file has at most this many bytes.
pub const MAX_FILE_BYTES: usize = 65_536;

/// A directory has at most this many entries.
pub const MAX_ENTRIES: usize = 128;

/// A mode is at most this: twelve bits.
pub const MAX_MODE: u16 = 0o7777;

/// A write has from 1 to this many bytes.
pub const MAX_WRITE_BYTES: usize = 4_096;

/// An operation orders from 1 to this many objects.
pub const MAX_ORDERED: usize = 8;

// A directory that moves comes below at most this many other directories.
pub(crate) const MAX_ABOVE: usize = MAX_PATH_NAMES as usize - 1;

// The mode of a new file.
pub(crate) const FILE_MODE: u16 = 0o644;

// The mode of a new directory.
pub(crate) const DIR_MODE: u16 = 0o755;
