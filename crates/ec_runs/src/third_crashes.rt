// Random scripts with crashes and ended sessions.
ghost use Rattle.ec_protocol.specs.Runs.{Shows};
ghost use Rattle.ec_runs.specs.ThirdCrashes.{crash_16, crash_17, crash_18, crash_19, crash_20, crash_21};

/// The machine shows of these scripts, with crashes and ended sessions, what the simulator shows.
pub fn shows_third_crashes()
    ensures crash_16 { Shows crash_16 }
    ensures crash_17 { Shows crash_17 }
    ensures crash_18 { Shows crash_18 }
    ensures crash_19 { Shows crash_19 }
    ensures crash_20 { Shows crash_20 }
    ensures crash_21 { Shows crash_21 }
{}
