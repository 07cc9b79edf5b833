// The first steps of lines of a script without faults: a clerk that starts with its call, and a push.
ghost use Rattle.ec_quiet.specs.First.{PushesBegin, StartsGreet};

/// Where all is idle, a clerk that starts with a call greets, and its call waits for a token or is answered.
pub fn starts_greet()
    ensures { StartsGreet }
{}

/// Where all is idle, a push of a clerk that runs sends a batch, or leaves nothing to do.
pub fn pushes_begin()
    ensures { PushesBegin }
{}
