// What holds of the id 0, and of refusals of room, behind every step that answers nothing.
ghost use Rattle.ec_lawful.specs.OfClerkSteps.ZeroLaws.{ChangesKeepZeros, ClerksRefuseNone, HaveNoZero, IdsHaveNoZero, OpeningZeros, RecordsKeepZeros, ServersRefuseRightly, StartsRefuseNone, StepsKeepZeros};

/// No operation, no id of a clerk and no debt is of the object 0: where nobody is there, behind each record
/// that the server commits, behind changes of one clerk, and behind each function of its step.
pub fn zeros_stay_out()
    ensures opening { OpeningZeros }
    ensures records { RecordsKeepZeros }
    ensures changes { ChangesKeepZeros }
    ensures steps { StepsKeepZeros }
    ensures functions { HaveNoZero }
    ensures ids { IdsHaveNoZero }
{}

/// Each refusal of room that was sent was right: the server's steps send no other one, and a clerk's send none.
pub fn rooms_are_refused_rightly()
    ensures servers { ServersRefuseRightly }
    ensures starts { StartsRefuseNone }
    ensures clerks { ClerksRefuseNone }
{}
