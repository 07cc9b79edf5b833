// Whole runs of the composition: the lines that they show are lawful.
ghost use Rattle.ec_lawful.specs.Goes.{StepsEndLined};
ghost use Rattle.ec_lawful.specs.RunLaws.{RunsShow};
ghost use Rattle.ec_lawful.specs.Rooms.{AskingsAreForgotten};
ghost use Rattle.ec_lawful.specs.Taking.{MessagesAreDone, MessagesStand};
ghost use Rattle.ec_lawful.specs.Tries.{EachAnswers, EachTries};

/// All facts of a step under way stand behind the clerk's forgetting that it asked for ids.
pub fn askings_are_forgotten()
    ensures { AskingsAreForgotten }
{}

/// A step under way stands behind the tries of all waiting calls, and behind each single answer, with its lines and with
/// what they show.
pub fn tries_tell()
    ensures tried { EachTries }
    ensures answered { EachAnswers }
{}

/// At the end of a step each waiting call has its line, where each call that was under way has one or was
/// answered in the step.
pub fn steps_end_with_their_lines()
    ensures { StepsEndLined }
{}

/// A clerk takes any message that was sent and answers no call, in a session and without one; it takes a session so,
/// and leaves it.
pub fn clerks_take_messages()
    ensures stand { MessagesStand }
    ensures done { MessagesAreDone }
{}

/// The lines of each run over a well-formed state are lawful: they stand in one legal history of one
/// uncached volume, each front of them too, in which a new object has the place of its call's line above
/// the greatest id as its id; each answer is that of its line; no session ends unasked; and
/// the disk's volume is what durable lines leave.
pub fn runs_are_lawful()
    ensures { RunsShow }
{}
