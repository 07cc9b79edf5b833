// Runs over the lines of a script without faults: deliveries meet no limit, and lines settle one after the other.
ghost use Rattle.ec_quiet.specs.OfDeliveries.Runs.{DeliveriesMeetNoLimit, LinesSettle, LinesSettleOrEnd, RunsSettleAlike};

/// A delivery of a line in a phase meets no fault, where counters are far below their limits.
pub fn deliveries_meet_no_limit()
    ensures { DeliveriesMeetNoLimit }
{}

/// Where the disk runs, a line settles as without a word on the disk.
pub fn runs_settle_alike()
    ensures { RunsSettleAlike }
{}

/// A line that begins in a phase settles in time, where each message that comes can be taken.
pub fn lines_settle()
    ensures { LinesSettle }
{}

/// So does one where messages can be taken as far as counters reach, if it ends without a fault; else
/// it ended in a delivery.
pub fn lines_settle_or_end()
    ensures { LinesSettleOrEnd }
{}
