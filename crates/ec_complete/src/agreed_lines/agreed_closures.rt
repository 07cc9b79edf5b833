// Write-behind in scripts without faults, in worlds where the invariant holds: what a line of the script makes durable lies in the closures that it
// asks for, among all operations that the clerk's start issued.
ghost use Rattle.ec_complete.specs.OfAgreedLines.Closures.{DurableLinesStayWithin, FirstStepsStayWithin, LinesSettleWithin, LinesTellWhatIsKept};

/// Each operation that a durable line names lies in a closure that the line of the script asks for:
/// of the object of its fsync, of the pushed operation, of all operations for a sync, or, where the
/// operations are another clerk's, of an object that the line's call touches.
pub fn durable_lines_stay_in_closures()
    ensures { DurableLinesStayWithin }
{}

/// The first step of a line shows no operation as durable.
pub fn first_steps_stay_in_closures()
    ensures { FirstStepsStayWithin }
{}

/// So it is with all lines that are shown while a line of the script settles.
pub fn lines_settle_in_closures()
    ensures { LinesSettleWithin }
{}

/// What the lines of a world leave is what is kept in its system: the volume, and so the work of a
/// line.
pub fn lines_tell_what_is_kept()
    ensures { LinesTellWhatIsKept }
{}
