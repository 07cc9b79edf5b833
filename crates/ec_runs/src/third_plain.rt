// Random scripts with no fault.
ghost use Rattle.ec_protocol.specs.Runs.{Shows};
ghost use Rattle.ec_runs.specs.ThirdPlain.{plain_16, plain_17, plain_18, plain_19, plain_20, plain_21};

/// The machine shows of these scripts, with no fault, what the simulator shows.
pub fn shows_third_plain()
    ensures plain_16 { Shows plain_16 }
    ensures plain_17 { Shows plain_17 }
    ensures plain_18 { Shows plain_18 }
    ensures plain_19 { Shows plain_19 }
    ensures plain_20 { Shows plain_20 }
    ensures plain_21 { Shows plain_21 }
{}
