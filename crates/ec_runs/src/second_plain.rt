// Random scripts with no fault.
ghost use Rattle.ec_protocol.specs.Runs.{Shows};
ghost use Rattle.ec_runs.specs.SecondPlain.{plain_8, plain_9, plain_10, plain_11, plain_12, plain_13, plain_14, plain_15};

/// The machine shows of these scripts, with no fault, what the simulator shows.
pub fn shows_second_plain()
    ensures plain_8 { Shows plain_8 }
    ensures plain_9 { Shows plain_9 }
    ensures plain_10 { Shows plain_10 }
    ensures plain_11 { Shows plain_11 }
    ensures plain_12 { Shows plain_12 }
    ensures plain_13 { Shows plain_13 }
    ensures plain_14 { Shows plain_14 }
    ensures plain_15 { Shows plain_15 }
{}
