// Random scripts with crashes and ended sessions.
ghost use Rattle.ec_protocol.specs.Runs.{Shows};
ghost use Rattle.ec_runs.specs.FourthCrashes.{crash_22, crash_23, crash_24};

/// The machine shows of these scripts, with crashes and ended sessions, what the simulator shows.
pub fn shows_fourth_crashes()
    ensures crash_22 { Shows crash_22 }
    ensures crash_23 { Shows crash_23 }
    ensures crash_24 { Shows crash_24 }
{}
