// Random scripts with stops of the server.
ghost use Rattle.ec_protocol.specs.Runs.{Shows};
ghost use Rattle.ec_runs.specs.FourthStops.{stop_22, stop_23, stop_24};

/// The machine shows of these scripts, with stops of the server, what the simulator shows.
pub fn shows_fourth_stops()
    ensures stop_22 { Shows stop_22 }
    ensures stop_23 { Shows stop_23 }
    ensures stop_24 { Shows stop_24 }
{}
