// Write-behind in scripts without faults: the line's work is followed through all worlds in which it settles.
ghost use Rattle.ec_complete.specs.Following.{CallsAreWorked, CallsBeginBehind, KnownLinesAreFollowed, KnownLinesWriteBehind, LinesStayWorked, PushesAreWorked, PushesBeginBehind, StartsBeginBehind, WorkedLinesSee};

/// A line is worked where it's about what its call touches on the volume that is kept, with the id of
/// its next object, or where it pushes an operation.
pub fn works_are_of_lines()
    ensures calls { CallsAreWorked }
    ensures pushes { PushesAreWorked }
{}

/// Its clerk sees what is kept: what it waits for is what the line is to make durable.
pub fn worked_lines_see()
    ensures { WorkedLinesSee }
{}

/// So it stays along the line's deliveries, which is all that write-behind asks for.
pub fn lines_stay_worked()
    ensures stay { LinesStayWorked }
    ensures followed { KnownLinesAreFollowed }
    ensures behind { KnownLinesWriteBehind }
{}

/// The first step of a line is such, and sends only what the line asks for.
pub fn first_steps_begin_behind()
    ensures calls { CallsBeginBehind }
    ensures starts { StartsBeginBehind }
    ensures pushes { PushesBeginBehind }
{}
