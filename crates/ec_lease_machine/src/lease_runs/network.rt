// Random scripts with leases, and lost, repeated and late messages.
ghost use Rattle.ec_lease_machine.specs.Runs.{Shows};
ghost use Rattle.ec_lease_machine.specs.OfLeaseRuns.Network.{net_0, net_1, net_2, net_3, net_4, net_5, net_6, net_7, net_8, net_9};

/// The machine shows of these scripts what the simulator shows.
pub fn shows_network()
    ensures net_0 { Shows net_0 }
    ensures net_1 { Shows net_1 }
    ensures net_2 { Shows net_2 }
    ensures net_3 { Shows net_3 }
    ensures net_4 { Shows net_4 }
    ensures net_5 { Shows net_5 }
    ensures net_6 { Shows net_6 }
    ensures net_7 { Shows net_7 }
    ensures net_8 { Shows net_8 }
    ensures net_9 { Shows net_9 }
{}
