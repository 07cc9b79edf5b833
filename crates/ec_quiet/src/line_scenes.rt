// The first step of a line, its end and the opening, in the world and in its scene, while a script has no faults.
ghost use Rattle.ec_quiet.specs.Lines.{CallsAreCarriedOut, EndsKeepScenes, OpeningsAreQuiet, PushesKeepScenes, StartsKeepScenes};

/// A clerk starts with its call in the world as in its scene.
pub fn starts_keep_scenes()
    ensures { StartsKeepScenes }
{}

/// A call of a clerk that runs is carried out where no counter is spent.
pub fn calls_are_carried_out()
    ensures { CallsAreCarriedOut }
{}

/// A push is carried out in the world as in its scene.
pub fn pushes_keep_scenes()
    ensures { PushesKeepScenes }
{}

/// At the end of a line nothing is pending.
pub fn lines_end_without_mail()
    ensures { EndsKeepScenes }
{}

/// A world that is opened on a new disk is quiet.
pub fn openings_are_idle()
    ensures { OpeningsAreQuiet }
{}
