// The first step of a line's call: it may go on, and the line's world is as its deliveries ask for.
ghost use Rattle.ec_complete.specs.LineCalls.{CallsComeOn, CallsLeaveKept, CallsMayBegin, StartsComeOn, StartsLeaveKept};

/// Where all was idle, a call that is added to its clerk may go on.
pub fn calls_may_begin()
    ensures { CallsMayBegin }
{}

/// Behind its first step all facts hold of the world, and the line is about what its call touches,
/// while it waits.
pub fn calls_come_on_line()
    ensures { CallsComeOn }
{}

/// So it is where the clerk starts with the call.
pub fn starts_come_on_line()
    ensures { StartsComeOn }
{}

/// What is kept stays as it is in that step, while the call waits: it's about what the call touches
/// there, with the id of its next object.
pub fn calls_leave_what_is_kept()
    ensures { CallsLeaveKept }
{}

/// So it is where the clerk starts with the call.
pub fn starts_leave_what_is_kept()
    ensures { StartsLeaveKept }
{}
