// Worlds in which a line settles without faults, one behind the other: what is kept stays as it is until the line's call is answered.
ghost use Rattle.ec_complete.specs.Staying.{LinesLeaveKept, LinesStayOn};

/// Behind a delivery all facts hold again, and the line is about what its call touches, while it waits.
pub fn lines_stay_on()
    ensures { LinesStayOn }
{}

/// And what is kept stays as it is, while the line's call waits.
pub fn lines_leave_what_is_kept()
    ensures { LinesLeaveKept }
{}
