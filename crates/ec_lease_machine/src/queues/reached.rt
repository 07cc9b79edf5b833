// Worlds that runs reach in which calls wait before they begin.
ghost use Rattle.ec_lease_machine.specs.OfQueues.Reached.{QueuedAreInOrder, QueuedHold, ReachedAreQueued};

/// Each world that is reached without queues is one of those with queues.
pub fn reached_worlds_are_queued()
    ensures { ReachedAreQueued }
{}

/// Each world of a run over a well-formed state, between two steps, also where calls waited before they
/// began: its lines are lawful, no two clerks hold conflicting tokens, and what they hold is what is kept.
pub fn queued_worlds_are_in_order()
    ensures { QueuedAreInOrder }
{}

/// It stands in a system of which all facts hold, and in which nobody said goodbye.
pub fn queued_worlds_hold_all_facts()
    ensures { QueuedHold }
{}
