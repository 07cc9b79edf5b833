// Random scripts with lost, repeated and late messages.
ghost use Rattle.ec_protocol.specs.Runs.{Shows};
ghost use Rattle.ec_runs.specs.SecondNetwork.{net_8, net_9, net_10, net_11, net_12, net_13, net_14, net_15};

/// The machine shows of these scripts, with lost, repeated and late messages, what the simulator shows.
pub fn shows_second_network()
    ensures net_8 { Shows net_8 }
    ensures net_9 { Shows net_9 }
    ensures net_10 { Shows net_10 }
    ensures net_11 { Shows net_11 }
    ensures net_12 { Shows net_12 }
    ensures net_13 { Shows net_13 }
    ensures net_14 { Shows net_14 }
    ensures net_15 { Shows net_15 }
{}
