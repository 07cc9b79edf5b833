// Random scripts with no fault.
ghost use Rattle.ec_protocol.specs.Runs.{Shows};
ghost use Rattle.ec_runs.specs.FirstPlain.{plain_0, plain_1, plain_2, plain_3, plain_4, plain_5, plain_6, plain_7};

/// The machine shows of these scripts, with no fault, what the simulator shows.
pub fn shows_first_plain()
    ensures plain_0 { Shows plain_0 }
    ensures plain_1 { Shows plain_1 }
    ensures plain_2 { Shows plain_2 }
    ensures plain_3 { Shows plain_3 }
    ensures plain_4 { Shows plain_4 }
    ensures plain_5 { Shows plain_5 }
    ensures plain_6 { Shows plain_6 }
    ensures plain_7 { Shows plain_7 }
{}
