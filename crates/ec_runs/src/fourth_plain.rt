// Random scripts with no fault.
ghost use Rattle.ec_protocol.specs.Runs.{Shows};
ghost use Rattle.ec_runs.specs.FourthPlain.{plain_22, plain_23, plain_24};

/// The machine shows of these scripts, with no fault, what the simulator shows.
pub fn shows_fourth_plain()
    ensures plain_22 { Shows plain_22 }
    ensures plain_23 { Shows plain_23 }
    ensures plain_24 { Shows plain_24 }
{}
