// Ends of sessions, and so whole messages: behind each step of a running server all facts stand, with what its lines show.
ghost use Rattle.ec_coherence.specs.EndLaws.{EndStands, FinishStands, OverStands, TakesAny};

/// A step of a server that hasn't committed a record yet stands, with all facts, behind the end of a
/// session, and behind a new session in the place of an open one, which ends by the same record.
pub fn ends_stand()
    ensures finish { FinishStands }
    ensures over { OverStands }
{}

/// Behind each step of a running server all facts stand: it takes any message that was sent, or ends a
/// session for the administrator.
pub fn running_servers_keep_all()
    ensures takes { TakesAny }
    ensures end { EndStands }
{}
