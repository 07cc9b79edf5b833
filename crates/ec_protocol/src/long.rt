// Long scripts.
ghost use Rattle.ec_protocol.specs.Runs.{Shows};
ghost use Rattle.ec_protocol.specs.Long.{full_directory, renamed_files};

/// A directory of 128 entries, in which one more is refused.
pub fn shows_full_directory()
    ensures { Shows full_directory }
{}

/// Forty files are made, written and renamed, and another clerk lists them.
pub fn shows_renamed_files()
    ensures { Shows renamed_files }
{}
