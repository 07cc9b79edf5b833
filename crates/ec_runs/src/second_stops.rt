// Random scripts with stops of the server.
ghost use Rattle.ec_protocol.specs.Runs.{Shows};
ghost use Rattle.ec_runs.specs.SecondStops.{stop_8, stop_9, stop_10, stop_11, stop_12, stop_13, stop_14, stop_15};

/// The machine shows of these scripts, with stops of the server, what the simulator shows.
pub fn shows_second_stops()
    ensures stop_8 { Shows stop_8 }
    ensures stop_9 { Shows stop_9 }
    ensures stop_10 { Shows stop_10 }
    ensures stop_11 { Shows stop_11 }
    ensures stop_12 { Shows stop_12 }
    ensures stop_13 { Shows stop_13 }
    ensures stop_14 { Shows stop_14 }
    ensures stop_15 { Shows stop_15 }
{}
