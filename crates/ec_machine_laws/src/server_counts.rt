// Laws on what a server's step counts and commits, whatever message it takes.
ghost use Rattle.ec_machine_laws.specs.Counts.{BatchesAreFlushed, CountersRise, DeliveriesCount, DurableLinesAreFlushed};

/// The numbers of tokens and of sessions rise by no more than the messages that the server sends.
pub fn counters_rise_with_messages()
    ensures { CountersRise }
{}

/// A batch that is committed, and so a line that names its operations durable, is that of the
/// message which the server took.
pub fn batches_are_flushed()
    ensures { BatchesAreFlushed }
{}

/// So in a world whose messages are delivered the counters stay below the messages that were sent.
pub fn worlds_count_messages()
    ensures { DeliveriesCount }
{}

/// A delivery shows operations as durable only where the message is a batch of just these.
pub fn durable_lines_are_flushed()
    ensures { DurableLinesAreFlushed }
{}
