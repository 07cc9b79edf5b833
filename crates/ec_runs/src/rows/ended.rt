// Transcripts in which sessions end.
ghost use Rattle.std.specs.Prelude.{[]};
ghost use Rattle.ec_history.specs.Legal.{IsLegal, from_formatted};
ghost use Rattle.ec_history.specs.Lines.{AreCovered};
ghost use Rattle.ec_history.specs.Placing.{ArePlaceable, place};
ghost use Rattle.ec_runs.specs.OfRows.Ended.{lost_create, lost_write, late_read, ended_behind_restart, lost_rename, found_at_restart, second_start, ended_before_answer, unseen_start, reserved_ids, used_ids};

/// A start sees that the create of the start before it is lost.
pub fn accepts_lost_create()
    ensures placeable { ArePlaceable [] lost_create }
    ensures legal { IsLegal from_formatted 1024 (place lost_create) }
{}

/// A start sees that the create and the write of the start before it are lost.
pub fn accepts_lost_write()
    ensures placeable { ArePlaceable [] lost_write }
    ensures legal { IsLegal from_formatted 1024 (place lost_write) }
{}

/// A clerk that is cut off reads, behind the end of its session, what it wrote and lost.
pub fn accepts_late_read()
    ensures placeable { ArePlaceable [] late_read }
    ensures legal { IsLegal from_formatted 1024 (place late_read) }
    ensures covered { AreCovered from_formatted late_read }
{}

/// The session of a clerk that did not claim its tokens again ends behind a restart.
pub fn accepts_ended_behind_restart()
    ensures placeable { ArePlaceable [] ended_behind_restart }
    ensures legal { IsLegal from_formatted 1024 (place ended_behind_restart) }
    ensures covered { AreCovered from_formatted ended_behind_restart }
{}

/// A lost rename is reported once on each object that it changed.
pub fn accepts_lost_rename()
    ensures placeable { ArePlaceable [] lost_rename }
    ensures legal { IsLegal from_formatted 1024 (place lost_rename) }
    ensures covered { AreCovered from_formatted lost_rename }
{}

/// A restart finds a session ended, and its loss is reported.
pub fn accepts_found_at_restart()
    ensures placeable { ArePlaceable [] found_at_restart }
    ensures legal { IsLegal from_formatted 1024 (place found_at_restart) }
{}

/// A second start answers behind the end of its session, of which it was not told.
pub fn accepts_second_start()
    ensures placeable { ArePlaceable [] second_start }
    ensures legal { IsLegal from_formatted 1024 (place second_start) }
{}

/// A session ends before the first answer of its start.
pub fn accepts_ended_before_answer()
    ensures placeable { ArePlaceable [] ended_before_answer }
    ensures legal { IsLegal from_formatted 1024 (place ended_before_answer) }
{}

/// The session of a start ends that crashed before it showed one.
pub fn accepts_unseen_start()
    ensures placeable { ArePlaceable [] unseen_start }
    ensures legal { IsLegal from_formatted 1024 (place unseen_start) }
{}

/// The ids reserved for one clerk leave no room for another one, until the session ends.
pub fn accepts_reserved_ids()
    ensures placeable { ArePlaceable [] reserved_ids }
    ensures legal { IsLegal from_formatted 32 (place reserved_ids) }
{}

/// A clerk that used its ids gets no more.
pub fn accepts_used_ids()
    ensures placeable { ArePlaceable [] used_ids }
    ensures legal { IsLegal from_formatted 32 (place used_ids) }
    ensures covered { AreCovered from_formatted used_ids }
{}
