// All facts behind a change of a clerk that is in a session, behind a crash, a stop and a start.
ghost use Rattle.ec_coherence.specs.StandLaws.{AsksStand, BeginsStand, ChangesStand, CrashesStand, GoesOnStand, LinesStand, PassesStand, PicksStand, RestsStand, RoomsStand, SendsAgainStand, StartsStand, StopsStand, WantsStand};

/// Behind a change of a clerk that goes on in its session, with messages that speak of its sessions, all
/// facts stand, where those on tokens, logs and images do; and of what no fact reads, any change may be made.
pub fn clerks_may_change()
    ensures change { ChangesStand }
    ensures rest { RestsStand }
{}

/// A step of a running clerk begins with all facts, and they stand behind each such change of it, with the
/// messages that it sends.
pub fn clerks_may_step()
    ensures begin { BeginsStand }
    ensures on { GoesOnStand }
{}

/// A clerk in a session wants an object, asks for ids, or asks for a closure to be durable, and its step
/// stands with all facts behind the whole function.
pub fn clerks_may_ask()
    ensures wants { WantsStand }
    ensures rooms { RoomsStand }
    ensures batches { AsksStand }
{}

/// A clerk passes a batch that the server's window has, sends one under way again, or picks one and sends
/// it, and all facts stand.
pub fn batches_stand()
    ensures passed { PassesStand }
    ensures again { SendsAgainStand }
    ensures picked { PicksStand }
{}

/// A start of a clerk crashes, or the server stops, each with its line, or a stopped server starts, and all
/// facts stand; so they do behind a line that says nothing of clerks.
pub fn nodes_may_stop()
    ensures crash { CrashesStand }
    ensures stop { StopsStand }
    ensures start { StartsStand }
    ensures lines { LinesStand }
{}
