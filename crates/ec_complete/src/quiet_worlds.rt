// Worlds in which all is idle, and of which all facts hold, are quiet.
ghost use Rattle.ec_complete.specs.Quiet.{IdleWorldsAreQuiet};

/// Where all is idle no call is under way, and so the world is quiet.
pub fn idle_worlds_are_quiet()
    ensures { IdleWorldsAreQuiet }
{}
