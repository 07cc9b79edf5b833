// The calls that are answered while a line of a script without faults settles.
ghost use Rattle.ec_complete.specs.OfAgreedLines.Answered.{CallsAreAnsweredOnce, LinesAnswerNothingElse};

/// The call of a line is answered once, or is still under way.
pub fn calls_are_answered_once()
    ensures { CallsAreAnsweredOnce }
{}

/// Where no call is under way, a line without a call answers none.
pub fn lines_answer_nothing_else()
    ensures { LinesAnswerNothingElse }
{}
