// Worlds that runs reach: in each of them what clerks hold is what is kept.
ghost use Rattle.ec_lawful.specs.ReachedLaws.{LegalAreFitting, ReachedAreInOrder, RunsStayInOrder};

/// Each world of a run over a well-formed state, between two steps, whatever was lost, repeated or
/// reordered, and wherever clerks crashed, the server stopped or sessions ended: its lines are lawful, no
/// two clerks hold conflicting tokens under open sessions, each image that they hold is the object's in
/// what is kept, and what is kept fits and leaves a well-formed volume.
pub fn reached_worlds_are_in_order()
    ensures { ReachedAreInOrder }
{}

/// So is the world behind each of the first lines of a script.
pub fn runs_stay_in_order()
    ensures { RunsStayInOrder }
{}

/// What a legal history keeps at each entry, and so behind each loss, fits and leaves a well-formed volume.
pub fn legal_histories_are_fitting()
    ensures { LegalAreFitting }
{}
