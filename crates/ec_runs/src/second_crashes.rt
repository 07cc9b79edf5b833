// Random scripts with crashes and ended sessions.
ghost use Rattle.ec_protocol.specs.Runs.{Shows};
ghost use Rattle.ec_runs.specs.SecondCrashes.{crash_8, crash_9, crash_10, crash_11, crash_12, crash_13, crash_14, crash_15};

/// The machine shows of these scripts, with crashes and ended sessions, what the simulator shows.
pub fn shows_second_crashes()
    ensures crash_8 { Shows crash_8 }
    ensures crash_9 { Shows crash_9 }
    ensures crash_10 { Shows crash_10 }
    ensures crash_11 { Shows crash_11 }
    ensures crash_12 { Shows crash_12 }
    ensures crash_13 { Shows crash_13 }
    ensures crash_14 { Shows crash_14 }
    ensures crash_15 { Shows crash_15 }
{}
