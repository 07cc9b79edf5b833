// All facts before the calls of a clerk are tried in the step in which one begins.
ghost use Rattle.ec_lawful.specs.BeginLaws.{CallsHaveBegun, FreshStartsAnswer, StartsHaveBegun};

/// A call of a running clerk has begun, with its line or none; and the first one of a clerk's next start has,
/// with its line.
pub fn calls_have_begun()
    ensures call { CallsHaveBegun }
    ensures start { StartsHaveBegun }
{}

/// The step that answers the first call of a clerk's next start, before any line shows the start.
pub fn first_calls_are_answered()
    ensures { FreshStartsAnswer }
{}
