// Calls that are queued: each has its line before it begins.
ghost use Rattle.ec_lease_machine.specs.OfQueues.Queued.{QueuesKeepAll, ResumesHold, WaitsHold};

/// All facts hold behind the line of a running clerk's call that waits before it begins, and behind the
/// step in which a call begins whose line was shown before.
pub fn queued_calls_keep_all_facts()
    ensures { QueuesKeepAll }
{}

/// So they hold in the world behind both.
pub fn worlds_stand_behind_queued_calls()
    ensures waits { WaitsHold }
    ensures resumes { ResumesHold }
{}
