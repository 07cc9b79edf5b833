// Leases and sessions.
ghost use Rattle.ec_lease_machine.specs.OfLeaseLaws.Agrees.{LeasesStay, OpeningAgrees};
ghost use Rattle.ec_lease_machine.specs.OfLeaseLaws.Timely.{UnheldAreTold};

/// At the opening, and behind each step, whatever the disk does and whatever clocks show: each Lease was
/// issued for a session that was open; what was issued for an open one is noted; and all that was issued
/// for one that ended is past, on each clock that may be.
pub fn leases_agree_behind_each_step()
    ensures opening { OpeningAgrees }
    ensures steps { LeasesStay }
{}

/// So a clerk that is in a session and isn't held has nothing untold: it answers nothing behind the end of
/// its session.
pub fn unheld_clerks_are_told()
    ensures { UnheldAreTold }
{}
