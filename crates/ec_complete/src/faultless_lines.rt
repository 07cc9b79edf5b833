// Scripts without faults: each line goes on in the world behind those before it.
ghost use Rattle.ec_complete.specs.Goes.{LinesGoOn, LinesGoThrough, PushesGo};
ghost use Rattle.ec_complete.specs.Ready.{NewDisksAreReady, OpeningsAreReady};
ghost use Rattle.ec_complete.specs.Scripts.{ScriptsArePlain, ScriptsGoOn, ScriptsSettle};

/// A world that is opened is ready for the first line; so it is on a new disk.
pub fn openings_are_ready()
    ensures old { OpeningsAreReady }
    ensures new { NewDisksAreReady }
{}

/// A line that meets no fault in its first step goes on in a world that is ready for it. If it ends
/// without a fault it settled, and leaves a world that is ready for the next; else it ended in a
/// delivery.
pub fn lines_go_on()
    ensures { LinesGoOn }
{}

/// Where counters were far below their limits it goes through to such a world.
pub fn lines_go_through()
    ensures { LinesGoThrough }
{}

/// A push of an operation that its clerk issued meets no fault in such a world.
pub fn issued_pushes_go()
    ensures { PushesGo }
{}

/// Each line of a script goes on, one behind the other; and so it begins and settles.
pub fn scripts_go_on()
    ensures on { ScriptsGoOn }
    ensures settle { ScriptsSettle }
{}

/// A script without faults is answered plainly on a new disk, where no push meets a fault and no
/// call is refused for want of room.
pub fn scripts_are_plain()
    ensures { ScriptsArePlain }
{}
