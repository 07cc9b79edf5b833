// Laws on write-behind in scripts without faults: while a line settles, nothing is made durable but what the line asks for.
ghost use Rattle.ec_quiet.specs.OfDeliveries.PhasesBehind.{CallsBeginBehind, DeliveriesStayBehind, IdleIsBehind, LinesAreBehind, PushesBeginBehind, ShownIsSeen, StartsBeginBehind};
ghost use Rattle.ec_quiet.specs.OfDeliveries.ScriptWorks.{OwnOperationsWait, TouchesAreWorks, WorksWriteBehind};

/// A clerk whose cache shows a volume waits for what a line is to make durable over that volume.
pub fn shown_volumes_are_seen()
    ensures { ShownIsSeen }
{}

/// Where all is idle nothing is under way to be durable, and the first step of a line sends only
/// what the line asks for: a call of a clerk that runs, a call of one that starts, and a push.
pub fn lines_begin_behind()
    ensures idle { IdleIsBehind }
    ensures call { CallsBeginBehind }
    ensures start { StartsBeginBehind }
    ensures push { PushesBeginBehind }
{}

/// Each delivery keeps it so.
pub fn deliveries_stay_behind()
    ensures { DeliveriesStayBehind }
{}

/// So a durable line names operations of a closure that the line of the script asks for: of its own
/// clerk those on the object of its fsync, the pushed one, or all for a sync; of another clerk those
/// on an object that its call touches.
pub fn durable_lines_are_asked_for()
    ensures { LinesAreBehind }
{}

/// Where such closures are of all operations that the clerk's start issued, each operation that a
/// durable line names lies in one that the line of the script asks for.
pub fn works_of_lines_write_behind()
    ensures behind { WorksWriteBehind }
    ensures works { TouchesAreWorks }
{}

/// It's no idle rule: a line whose call is no fsync and no sync makes none of its own clerk's
/// operations durable.
pub fn own_operations_wait()
    ensures { OwnOperationsWait }
{}
