// The first step of a line of a script without faults.
ghost use Rattle.ec_complete.specs.OfAgreedLines.Lines.{CallsBegin};

/// Where all is idle, a call of a clerk that runs leads to a phase: it wants, asks or saves, or it's answered.
pub fn calls_begin()
    ensures { CallsBegin }
{}
