// Worlds that settle, seen as their scenes, while a script has no faults.
ghost use Rattle.ec_quiet.specs.SettlingScenes.{CallsKeepScenes, DeliveriesKeepScenes, EndsAreIdle, NothingIsDue, PhasesSettle};

/// A delivery leads from the world's scene to that of the next world; without messages nothing is due.
pub fn deliveries_keep_scenes()
    ensures next { DeliveriesKeepScenes }
    ensures none { NothingIsDue }
{}

/// Where a line's work is in a phase and nothing is under way, all is idle.
pub fn ends_are_idle()
    ensures { EndsAreIdle }
{}

/// A line whose deliveries lower the measure settles in time, without an unsettled message, and all is idle then.
pub fn phases_settle()
    ensures { PhasesSettle }
{}

/// A call of a clerk that runs begins in the world as in its scene.
pub fn calls_keep_scenes()
    ensures { CallsKeepScenes }
{}
