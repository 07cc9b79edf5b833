// The beginning.
ghost use Rattle.ec_coherence.specs.Opening.{OpeningAgrees, FirstStartStands};

/// All facts hold of a formatted disk before anything happened, and behind the first start of a
/// server on it.
pub fn the_opening_agrees()
    ensures opening { OpeningAgrees }
    ensures start { FirstStartStands }
{}
