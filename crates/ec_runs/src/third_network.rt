// Random scripts with lost, repeated and late messages.
ghost use Rattle.ec_protocol.specs.Runs.{Shows};
ghost use Rattle.ec_runs.specs.ThirdNetwork.{net_16, net_17, net_18, net_19, net_20, net_21};

/// The machine shows of these scripts, with lost, repeated and late messages, what the simulator shows.
pub fn shows_third_network()
    ensures net_16 { Shows net_16 }
    ensures net_17 { Shows net_17 }
    ensures net_18 { Shows net_18 }
    ensures net_19 { Shows net_19 }
    ensures net_20 { Shows net_20 }
    ensures net_21 { Shows net_21 }
{}
