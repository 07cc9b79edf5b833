// What calls can come upon is named, and clerks are in order, behind the steps of a server, behind answers, and where a clerk takes or leaves a
// session.
ghost use Rattle.ec_lawful.specs.OfClerkSteps.NameLaws.{AnswersKeepNames, ClerksKeepNames, EndedKeepsNames, HeldIsNamed, NamesAreRead, NamesBegin, NamesFollow, OpenedKeepsNames, OpsAreNamed, OutsKeepNames, ServersKeepNames, ServersKeepOrder, StatesKeepNames};

/// What is named stays so behind each step that gives ids at or above the next one alone, and leaves each clerk in
/// its session or in none.
pub fn names_stay()
    ensures follow { NamesFollow }
    ensures read { NamesAreRead }
    ensures begin { NamesBegin }
{}

/// So it does behind each step of a running server, and clerks stay in order.
pub fn servers_keep_names()
    ensures states { StatesKeepNames }
    ensures steps { ServersKeepNames }
    ensures order { ServersKeepOrder }
{}

/// What a clerk holds and what it changes is named, and all stays so behind a change of it, behind an answer, and
/// where it takes or leaves a session.
pub fn clerks_keep_names()
    ensures held { HeldIsNamed }
    ensures ops { OpsAreNamed }
    ensures change { ClerksKeepNames }
    ensures answers { AnswersKeepNames }
    ensures outs { OutsKeepNames }
    ensures opened { OpenedKeepsNames }
    ensures ended { EndedKeepsNames }
{}
