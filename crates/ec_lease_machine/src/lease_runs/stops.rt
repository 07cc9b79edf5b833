// Random scripts with leases, and stops and restarts.
ghost use Rattle.ec_lease_machine.specs.Runs.{Shows};
ghost use Rattle.ec_lease_machine.specs.OfLeaseRuns.Stops.{stop_0, stop_1, stop_2, stop_3, stop_4, stop_5, stop_6, stop_7, stop_8, stop_9};

/// The machine shows of these scripts what the simulator shows.
pub fn shows_stops()
    ensures stop_0 { Shows stop_0 }
    ensures stop_1 { Shows stop_1 }
    ensures stop_2 { Shows stop_2 }
    ensures stop_3 { Shows stop_3 }
    ensures stop_4 { Shows stop_4 }
    ensures stop_5 { Shows stop_5 }
    ensures stop_6 { Shows stop_6 }
    ensures stop_7 { Shows stop_7 }
    ensures stop_8 { Shows stop_8 }
    ensures stop_9 { Shows stop_9 }
{}
