// The history behind an answer of a clerk.
ghost use Rattle.ec_coherence.specs.EventLaws.{AnswersKeep, AnswersLeaveOthers, AnswersStand, EndsAreLawful, LateAnswersStand};

/// An answer keeps the history legal, and what is owed; and what an end loses may be lost.
pub fn answers_keep_the_history()
    ensures stands { AnswersStand }
    ensures keeps { AnswersKeep }
    ensures leaves { AnswersLeaveOthers }
    ensures late { LateAnswersStand }
    ensures ends { EndsAreLawful }
{}
