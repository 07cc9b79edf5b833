// Transcripts in which some operations become durable before others.
ghost use Rattle.std.specs.Prelude.{[]};
ghost use Rattle.ec_history.specs.Legal.{IsLegal, from_formatted};
ghost use Rattle.ec_history.specs.Lines.{AreCovered};
ghost use Rattle.ec_history.specs.Placing.{ArePlaceable, place};
ghost use Rattle.ec_runs.specs.OfRows.Durable.{fsynced_file, seen_by_next_start, recalled_write, disjoint_overwrites, meeting_overwrites, moved_directories, late_grant, claimed_tokens};

/// An `fsync` keeps a later operation, and an earlier one is lost.
pub fn accepts_fsynced_file()
    ensures placeable { ArePlaceable [] fsynced_file }
    ensures legal { IsLegal from_formatted 1024 (place fsynced_file) }
    ensures covered { AreCovered from_formatted fsynced_file }
{}

/// The same, and the next start of the clerk sees that the file is not there.
pub fn accepts_seen_by_next_start()
    ensures placeable { ArePlaceable [] seen_by_next_start }
    ensures legal { IsLegal from_formatted 1024 (place seen_by_next_start) }
    ensures covered { AreCovered from_formatted seen_by_next_start }
{}

/// A read by another clerk makes exactly the closures durable.
pub fn accepts_recalled_write()
    ensures placeable { ArePlaceable [] recalled_write }
    ensures legal { IsLegal from_formatted 1024 (place recalled_write) }
{}

/// Of two overwrites of disjoint bytes the later one is kept and the earlier one is lost.
pub fn accepts_disjoint_overwrites()
    ensures placeable { ArePlaceable [] disjoint_overwrites }
    ensures legal { IsLegal from_formatted 1024 (place disjoint_overwrites) }
    ensures covered { AreCovered from_formatted disjoint_overwrites }
{}

/// Two overwrites of bytes that meet become durable together.
pub fn accepts_meeting_overwrites()
    ensures placeable { ArePlaceable [] meeting_overwrites }
    ensures legal { IsLegal from_formatted 1024 (place meeting_overwrites) }
    ensures covered { AreCovered from_formatted meeting_overwrites }
{}

/// Two moves of directories that rest on each other become durable together.
pub fn accepts_moved_directories()
    ensures placeable { ArePlaceable [] moved_directories }
    ensures legal { IsLegal from_formatted 1024 (place moved_directories) }
    ensures covered { AreCovered from_formatted moved_directories }
{}

/// A read that waited while another clerk wrote has the new bytes.
pub fn accepts_late_grant()
    ensures placeable { ArePlaceable [] late_grant }
    ensures legal { IsLegal from_formatted 1024 (place late_grant) }
    ensures covered { AreCovered from_formatted late_grant }
{}

/// Behind a restart the clerks go on with what they hold.
pub fn accepts_claimed_tokens()
    ensures placeable { ArePlaceable [] claimed_tokens }
    ensures legal { IsLegal from_formatted 1024 (place claimed_tokens) }
{}
