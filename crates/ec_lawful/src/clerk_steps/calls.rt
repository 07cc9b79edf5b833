// Calls under way: what the lines show of them, and what their answers need.
ghost use Rattle.ec_lawful.specs.OfClerkSteps.CallLaws.{AnsweredOnce, AnswersKeepCalls, AnswersMayFollow, AreQuiet, BeginsAreStill, CallsBegin, CallsBeginSteps, CrashesKeepCalls, EvictsRest, LateSettledStands, LinesKeepCalls, OpeningCalls, OutsideShowsNone, QuietKeepsCalls, ResendsAreStill, RestsBehind, ServersKeepCalls, SettledStands, SettlesRest, StartsKeepCalls, StillKeepsTurn, StillWaits, TellsKeepCalls, TriesAnswer, TriesRest, TurnsAllow, WaitsKeepCalls, WaitsStand};

/// Where nobody runs no call is under way, and behind what a server does with its lines each waits as it did.
pub fn servers_keep_calls()
    ensures opening { OpeningCalls }
    ensures lines { LinesKeepCalls }
    ensures steps { ServersKeepCalls }
{}

/// A clerk's step begins with the calls under way, and behind a change that answers nothing they go on.
pub fn steps_keep_calls()
    ensures begin { CallsBeginSteps }
    ensures quiet { QuietKeepsCalls }
{}

/// A call begins on a line of its own, and a line says that it waits.
pub fn calls_begin()
    ensures begin { CallsBegin }
    ensures waits { WaitsKeepCalls }
    ensures stands { WaitsStand }
{}

/// An answer takes its call away, with a line.
pub fn answers_keep_calls()
    ensures { AnswersKeepCalls }
{}

/// A start that is told its loss goes on with its calls, one that crashes takes them along, and the next one
/// comes up without any.
pub fn starts_keep_calls()
    ensures told { TellsKeepCalls }
    ensures crash { CrashesKeepCalls }
    ensures start { StartsKeepCalls }
{}

/// The line of a waiting call's answer may follow the lines before it: its clerk is in a session, or shows none.
pub fn answers_may_follow()
    ensures line { AnswersMayFollow }
    ensures outside { OutsideShowsNone }
{}

/// What the answer of a call covers that its try answers is durable; a late one covers nothing that its start lost.
pub fn answers_cover_what_is_durable()
    ensures settled { SettledStands }
    ensures late { LateSettledStands }
{}

/// A try answers exactly a call that doesn't wait, and each goes on waiting where little changes, as at the
/// beginning of a step.
pub fn tries_answer_what_does_not_wait()
    ensures tries { TriesAnswer }
    ensures still { StillWaits }
    ensures begin { BeginsAreStill }
    ensures turn { StillKeepsTurn }
    ensures others { TurnsAllow }
{}

/// Behind a step all calls wait, and no recall is ready.
pub fn steps_end_at_rest()
    ensures settle { SettlesRest }
    ensures tries { TriesRest }
    ensures evict { EvictsRest }
    ensures behind { RestsBehind }
{}

/// Which functions of a clerk answer nothing.
pub fn messages_are_quiet()
    ensures quiet { AreQuiet }
    ensures again { ResendsAreStill }
{}

/// Each line number is answered at most once, by the clerk and with the call of all its lines.
pub fn lines_are_answered_once()
    ensures { AnsweredOnce }
{}
