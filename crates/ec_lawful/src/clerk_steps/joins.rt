// All facts behind a clerk that starts, greets, takes a session and leaves it when it has ended.
ghost use Rattle.ec_lawful.specs.OfClerkSteps.Frames.{AreCalm, CalmStepsKeep, CrashesKeep, KeptBatchesKeep, LateAnswersKeep, LinesKeepBoth, LinesKeepCounts, OpeningKeeps, PlainAnswersKeep, RecordsKeep, SameCutsKeep, StepsKeepCounts};
ghost use Rattle.ec_lawful.specs.OfClerkSteps.JoinLaws.{EndedStands, FreshStartsStand, GoesAtFirst, HellosStand, OpenedStands, OutsideStands, StartsStand, TakesOthers, TakesOutside};

/// A clerk that doesn't run starts, and greets: all facts stand behind its first line, and before it
/// all but that the lines show it.
pub fn clerks_may_start()
    ensures fresh { FreshStartsStand }
    ensures shown { StartsStand }
{}

/// A clerk greets, goes on without a session, takes one that was opened for it, or learns that its session
/// has ended.
pub fn clerks_join_and_leave()
    ensures hello { HellosStand }
    ensures outside { OutsideStands }
    ensures opened { OpenedStands }
    ensures ended { EndedStands }
{}

/// A clerk takes whole messages: any without a session, and in one any that isn't of it.
pub fn clerks_take_what_others_sent()
    ensures begin { GoesAtFirst }
    ensures outside { TakesOutside }
    ensures others { TakesOthers }
{}

/// Cut-off starts, and the lines' counts of starts, stand where nothing runs, and behind each record that
/// the server commits, where all facts do; behind whatever leaves what they read; and behind a crash.
pub fn cut_off_starts_stay_known()
    ensures opening { OpeningKeeps }
    ensures records { RecordsKeep }
    ensures same { SameCutsKeep }
    ensures crash { CrashesKeep }
    ensures lines { LinesKeepCounts }
    ensures both { LinesKeepBoth }
{}

/// So they do behind the functions of a clerk's step that answer nothing, and behind answers.
pub fn cut_off_starts_know_what_they_do()
    ensures calm { CalmStepsKeep }
    ensures functions { AreCalm }
    ensures batches { KeptBatchesKeep }
    ensures plain { PlainAnswersKeep }
    ensures late { LateAnswersKeep }
    ensures counts { StepsKeepCounts }
{}
