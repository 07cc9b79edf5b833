// What each step of a running server makes of the ghosts: all facts stand behind it, with ghosts that its record tells.
ghost use Rattle.ec_coherence.specs.Makes.{EndMakes, TakesMake};

/// Behind each message that a running server takes, and behind the end of a session for the
/// administrator, all facts stand with the ghosts that the step's record makes: nothing changes, a batch
/// is shown, a session ends or opens, or it is given ids.
pub fn steps_make_their_ghosts()
    ensures takes { TakesMake }
    ensures end { EndMakes }
{}
