// Random scripts with lost, repeated and late messages.
ghost use Rattle.ec_protocol.specs.Runs.{Shows};
ghost use Rattle.ec_runs.specs.FourthNetwork.{net_22, net_23, net_24};

/// The machine shows of these scripts, with lost, repeated and late messages, what the simulator shows.
pub fn shows_fourth_network()
    ensures net_22 { Shows net_22 }
    ensures net_23 { Shows net_23 }
    ensures net_24 { Shows net_24 }
{}
