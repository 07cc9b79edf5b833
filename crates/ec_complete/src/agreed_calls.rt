// Calls of a clerk that waits in its session, in a system of which all facts hold.
ghost use Rattle.ec_complete.specs.WaitingCalls.{AgreedCallsMayGo, LinesAreAbout};

/// What such a call lacks is touched, an update of it may be issued, and only tokens from before the line are too many: its clerk sees what is kept.
pub fn agreed_calls_may_go()
    ensures { AgreedCallsMayGo }
{}

/// What a call touches on a volume, with an id for its new object, is what a line may be about.
pub fn lines_are_about_what_they_touch()
    ensures { LinesAreAbout }
{}
