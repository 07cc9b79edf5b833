// Two files tied by forder, with a stop in each device call of the last batches; the power cut takes its writes back.
ghost use Rattle.ec_protocol.specs.Runs.{Shows};
ghost use Rattle.ec_runs.specs.StopsBefore.{call_1_old, call_2_old, call_3_old, call_4_old, call_5_old, call_6_old, call_7_old, call_8_old};

/// A stop in each device call leaves the record under way out or in.
pub fn shows_stops_before()
    ensures call_1_old { Shows call_1_old }
    ensures call_2_old { Shows call_2_old }
    ensures call_3_old { Shows call_3_old }
    ensures call_4_old { Shows call_4_old }
    ensures call_5_old { Shows call_5_old }
    ensures call_6_old { Shows call_6_old }
    ensures call_7_old { Shows call_7_old }
    ensures call_8_old { Shows call_8_old }
{}
