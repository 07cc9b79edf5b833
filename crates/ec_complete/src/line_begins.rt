// The first step of a line: what is kept stays as it is.
ghost use Rattle.ec_complete.specs.FirstSteps.{BeginsAreSteps, FirstStepsLeaveKept};

/// Where all was idle, and a clerk's step gave out no image and kept its tokens on undurable
/// operations, what is kept is the same behind it.
pub fn first_steps_leave_what_is_kept()
    ensures { FirstStepsLeaveKept }
{}

/// The step in which a call begins is such a one, where the call goes on waiting.
pub fn begun_calls_are_such_steps()
    ensures { BeginsAreSteps }
{}
