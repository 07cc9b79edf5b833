// Worked scripts, one for each rule of leases.
ghost use Rattle.ec_lease_machine.specs.Rows.{first_queued, kept_recall, late_end, late_lease, lost_queue, no_session, noted_again, no_fault, slow_clock};
ghost use Rattle.ec_lease_machine.specs.Runs.{Shows};

/// A session ends once its moment is past on each clock that may be, and not before.
pub fn shows_late_end()
    ensures { Shows late_end }
{}

/// A Lease comes late, and the queued call begins.
pub fn shows_late_lease()
    ensures { Shows late_lease }
{}

/// Without faults a run is that of a drill.
pub fn shows_no_fault()
    ensures { Shows no_fault }
{}

/// A clerk that didn't take its session isn't held: behind the end of that session it answers what
/// needs none.
pub fn shows_no_session()
    ensures { Shows no_session }
{}

/// A slow clock, and a fast one.
pub fn shows_slow_clock()
    ensures { Shows slow_clock }
{}

/// Queued calls begin in order.
pub fn shows_first_queued()
    ensures { Shows first_queued }
{}

/// Queued calls vanish in a crash.
pub fn shows_lost_queue()
    ensures { Shows lost_queue }
{}

/// A restart notes open sessions anew.
pub fn shows_noted_again()
    ensures { Shows noted_again }
{}

/// A recall isn't delivered to a held clerk.
pub fn shows_kept_recall()
    ensures { Shows kept_recall }
{}
