// Scripts in which some operations become durable and others are lost.
ghost use Rattle.ec_protocol.specs.Runs.{Shows};
ghost use Rattle.ec_protocol.specs.Durable.{disjoint_overwrites, fsynced_file, late_grant, meeting_overwrites, moved_directories, recalled_write, seen_by_next_start};

/// An fsync of one file keeps it, and the create of another one is lost.
pub fn shows_fsynced_file()
    ensures { Shows fsynced_file }
{}

/// The same, and the next start sees it.
pub fn shows_seen_by_next_start()
    ensures { Shows seen_by_next_start }
{}

/// A read of another clerk makes the write durable, and the clerk, cut off, answers from what it holds.
pub fn shows_recalled_write()
    ensures { Shows recalled_write }
{}

/// Of two overwrites of one file the later one is kept alone.
pub fn shows_disjoint_overwrites()
    ensures { Shows disjoint_overwrites }
{}

/// Two overwrites of bytes that meet become durable together.
pub fn shows_meeting_overwrites()
    ensures { Shows meeting_overwrites }
{}

/// Two moves of directories that rest on each other become durable together.
pub fn shows_moved_directories()
    ensures { Shows moved_directories }
{}

/// A recall overtakes its grant, which is then not taken.
pub fn shows_late_grant()
    ensures { Shows late_grant }
{}
