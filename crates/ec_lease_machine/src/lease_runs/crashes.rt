// Random scripts with leases, and crashes and ended sessions.
ghost use Rattle.ec_lease_machine.specs.Runs.{Shows};
ghost use Rattle.ec_lease_machine.specs.OfLeaseRuns.Crashes.{crash_0, crash_1, crash_2, crash_3, crash_4, crash_5, crash_6, crash_7, crash_8, crash_9};

/// The machine shows of these scripts what the simulator shows.
pub fn shows_crashes()
    ensures crash_0 { Shows crash_0 }
    ensures crash_1 { Shows crash_1 }
    ensures crash_2 { Shows crash_2 }
    ensures crash_3 { Shows crash_3 }
    ensures crash_4 { Shows crash_4 }
    ensures crash_5 { Shows crash_5 }
    ensures crash_6 { Shows crash_6 }
    ensures crash_7 { Shows crash_7 }
    ensures crash_8 { Shows crash_8 }
    ensures crash_9 { Shows crash_9 }
{}
