// The same, where the power cut leaves its writes.
ghost use Rattle.ec_protocol.specs.Runs.{Shows};
ghost use Rattle.ec_runs.specs.StopsBehind.{call_1_new, call_2_new, call_3_new, call_4_new, call_5_new, call_6_new, call_7_new, call_8_new};

/// A stop in each device call leaves the record under way out or in.
pub fn shows_stops_behind()
    ensures call_1_new { Shows call_1_new }
    ensures call_2_new { Shows call_2_new }
    ensures call_3_new { Shows call_3_new }
    ensures call_4_new { Shows call_4_new }
    ensures call_5_new { Shows call_5_new }
    ensures call_6_new { Shows call_6_new }
    ensures call_7_new { Shows call_7_new }
    ensures call_8_new { Shows call_8_new }
{}
