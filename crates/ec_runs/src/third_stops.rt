// Random scripts with stops of the server.
ghost use Rattle.ec_protocol.specs.Runs.{Shows};
ghost use Rattle.ec_runs.specs.ThirdStops.{stop_16, stop_17, stop_18, stop_19, stop_20, stop_21};

/// The machine shows of these scripts, with stops of the server, what the simulator shows.
pub fn shows_third_stops()
    ensures stop_16 { Shows stop_16 }
    ensures stop_17 { Shows stop_17 }
    ensures stop_18 { Shows stop_18 }
    ensures stop_19 { Shows stop_19 }
    ensures stop_20 { Shows stop_20 }
    ensures stop_21 { Shows stop_21 }
{}
