// The ids of new objects are new: no object has them, and no call made an object with them before.
ghost use Rattle.ec_lawful.specs.FreshLaws.{AnswersStayFresh, FreshBegins, QuietStepsStayFresh, RecordsStayFresh, StartsStayFresh, TakenIdsStayFresh, TriesStayFresh};

/// Ids are fresh before anything was shown. They stay so behind each step that answers nothing, whatever is given
/// out, taken or left in it, and behind each answer.
pub fn ids_stay_fresh()
    ensures begin { FreshBegins }
    ensures quiet { QuietStepsStayFresh }
    ensures answers { AnswersStayFresh }
{}

/// So they do behind each part of a step: a change of one start, a record of the server, ids that a clerk takes, and
/// the answer that its verdict gives.
pub fn nodes_keep_ids_fresh()
    ensures starts { StartsStayFresh }
    ensures records { RecordsStayFresh }
    ensures ids { TakenIdsStayFresh }
    ensures tries { TriesStayFresh }
{}
