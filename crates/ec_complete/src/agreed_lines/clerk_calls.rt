// Calls of a line's clerk whose cache shows a well-formed volume.
ghost use Rattle.ec_complete.specs.OfAgreedLines.Shown.{CallsMayGo};

/// What such a call lacks is touched, an update of it may be issued, and only old tokens are too many.
pub fn calls_may_go()
    ensures { CallsMayGo }
{}
