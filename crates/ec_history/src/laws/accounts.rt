// What became of each operation, told by the lines of a transcript.
ghost use Rattle.ec_history.specs.OfLaws.Laws.{KeptAreTold, NothingTells, OneMoreTells};

/// Lines tell what became of each operation that a start issued, and that calls cover only what durable
/// lines name above them: before any line, and behind one more line of a legal history.
pub fn lines_tell_what_became_of_operations()
    ensures nothing { NothingTells }
    ensures more { OneMoreTells }
{}

/// An operation that is kept is named by a durable line, or is of its start's open session and not
/// durable yet.
pub fn what_is_kept_is_told()
    ensures { KeptAreTold }
{}
