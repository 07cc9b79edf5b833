// Counters of a world in which a line settles without faults.
ghost use Rattle.ec_complete.specs.Spare.{CountersAreSpare, IdsStayGiven, NextIsSpare};

/// No number of tokens and no counter of a clerk is at its end, and the line's clerk may issue an
/// operation, where few calls were made and few messages sent; nor are the numbers of sessions and
/// the ids, where they began far below theirs.
pub fn counters_are_spare()
    ensures counters { CountersAreSpare }
    ensures next { NextIsSpare }
{}

/// Ids are given to the sessions that are open, which stay so: behind a delivery, too.
pub fn ids_stay_given()
    ensures { IdsStayGiven }
{}
