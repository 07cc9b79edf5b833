// The whole invariant behind a server's functions that commit a record, and behind messages that it takes, with what the lines show of each clerk.
ghost use Rattle.ec_coherence.specs.CommitLaws.{FlushStands, GiveStands, LinesStand, OpeningShows, OpenStands, TakesEach, TakesHellos, IsWant, IsBack, IsClaim, IsFlush, IsRoom};

/// Which start runs, which session is open and what it may still lose is what the lines show: before
/// anything happened, and behind each change of the server that leaves the slots.
pub fn lines_show_what_stands()
    ensures opening { OpeningShows }
    ensures tables { LinesStand }
{}

/// A step of a server that hasn't committed a record yet stands, with all facts, behind ids that a
/// session is given, behind a session that it opens for a clerk without an open one, and behind a
/// batch that it takes.
pub fn records_stand()
    ensures give { GiveStands }
    ensures open { OpenStands }
    ensures flush { FlushStands }
{}

/// A running server takes a want, a token given back, a batch, a claim or an asking for ids, of any
/// session and epoch, or a greeting of a clerk that has no session open in whose place a new one would
/// come, and serves what is due: all facts stand behind the whole step, with its record and its messages.
pub fn messages_stand()
    ensures wants { TakesEach IsWant }
    ensures backs { TakesEach IsBack }
    ensures batches { TakesEach IsFlush }
    ensures claims { TakesEach IsClaim }
    ensures greetings { TakesHellos }
    ensures rooms { TakesEach IsRoom }
{}
