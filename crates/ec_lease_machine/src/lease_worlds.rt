//! Worlds with leases that runs reach: each stands over a world that the machine without leases reaches, with calls that wait before they begin. So all
//! that is proved of these holds of it; and the order in which its lines are printed is legal. Each function has an empty body, and its contract is a
//! law.
ghost use Rattle.ec_lease_machine.specs.OfLeaseWorlds.Printed.{LeasesArePrinted};
ghost use Rattle.ec_lease_machine.specs.OfLeaseWorlds.Queues.{LeaseWorldsAreReached};
ghost use Rattle.ec_lease_machine.specs.OfLeaseWorlds.Runs.{LeaseRunsAreLeased};

/// Each world with leases, between two steps, stands over a world that is reached where calls wait before
/// they begin: its lines are lawful, and what its clerks hold is what is kept. Its Leases agree with its
/// sessions, each queued call may begin behind its line, and no answer but one that needed nothing stands
/// behind the end of its session.
pub fn lease_worlds_are_reached()
    ensures { LeaseWorldsAreReached }
{}

/// So each front of its lines is legal in printed order.
pub fn printed_order_is_legal_with_leases()
    ensures { LeasesArePrinted }
{}

/// Each run over a script with leases, to its end or to a fault, whatever the disk does and whatever clocks
/// show: its lines without `held` are of calls of the script and lawful, and each front of them is legal in
/// printed order.
pub fn lease_runs_are_legal_in_printed_order()
    ensures { LeaseRunsAreLeased }
{}
