// Scripts in which sessions end.
ghost use Rattle.ec_protocol.specs.Runs.{Shows};
ghost use Rattle.ec_protocol.specs.Ended.{ended_before_answer, late_read, lost_create, lost_rename, lost_write, reserved_ids, second_start, unseen_start, used_ids};

/// A new start sees that the create of the one before it is lost.
pub fn shows_lost_create()
    ensures { Shows lost_create }
{}

/// A new start sees that the create and the write of the one before it are lost.
pub fn shows_lost_write()
    ensures { Shows lost_write }
{}

/// A session ends while its clerk is cut off and answers from what it holds.
pub fn shows_late_read()
    ensures { Shows late_read }
{}

/// A lost rename gives back the old name, the victim and its bytes, and is reported on each operand.
pub fn shows_lost_rename()
    ensures { Shows lost_rename }
{}

/// An answer of a second start, whose session has ended.
pub fn shows_second_start()
    ensures { Shows second_start }
{}

/// A session ends before its clerk knows of it.
pub fn shows_ended_before_answer()
    ensures { Shows ended_before_answer }
{}

/// The session of a start ends that crashed before it showed one.
pub fn shows_unseen_start()
    ensures { Shows unseen_start }
{}

/// The ids reserved for one clerk leave none for another one.
pub fn shows_reserved_ids()
    ensures { Shows reserved_ids }
{}

/// The ids that one clerk used leave none for it.
pub fn shows_used_ids()
    ensures { Shows used_ids }
{}
