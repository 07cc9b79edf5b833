// How many sessions end: behind each event of a world no more of them are shown ended than crashes and ends allow for.
ghost use Rattle.ec_lawful.specs.AskedLaws.{AskedShow, AsksStay, EventsAsk, OpenedIsFresh, OpeningAsks, RestartsAsk};

/// No session ends but by a crash or an end: so it is before anything happened, and behind each event and
/// each restart, of a world in whose system nobody said goodbye.
pub fn sessions_end_as_asked()
    ensures opening { OpeningAsks }
    ensures opened { OpenedIsFresh }
    ensures events { EventsAsk }
    ensures restarts { RestartsAsk }
    ensures shown { AskedShow }
{}

/// Nobody does, behind each step of a node.
pub fn nobody_says_goodbye()
    ensures { AsksStay }
{}
