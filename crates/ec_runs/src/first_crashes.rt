// Random scripts with crashes and ended sessions.
ghost use Rattle.ec_protocol.specs.Runs.{Shows};
ghost use Rattle.ec_runs.specs.FirstCrashes.{crash_0, crash_1, crash_2, crash_3, crash_4, crash_5, crash_6, crash_7};

/// The machine shows of these scripts, with crashes and ended sessions, what the simulator shows.
pub fn shows_first_crashes()
    ensures crash_0 { Shows crash_0 }
    ensures crash_1 { Shows crash_1 }
    ensures crash_2 { Shows crash_2 }
    ensures crash_3 { Shows crash_3 }
    ensures crash_4 { Shows crash_4 }
    ensures crash_5 { Shows crash_5 }
    ensures crash_6 { Shows crash_6 }
    ensures crash_7 { Shows crash_7 }
{}
