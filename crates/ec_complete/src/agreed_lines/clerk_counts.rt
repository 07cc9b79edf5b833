// Laws on what a clerk's step counts: its calls, operations, batches, askings and ids.
ghost use Rattle.ec_complete.specs.OfAgreedLines.Counting.{CallsCount, DeliveriesCountClerks, MessagesCount, PushesCount};

/// What a clerk counted stays below its calls and what it sent: behind a message, a call and a push.
pub fn clerks_count_what_they_send()
    ensures messages { MessagesCount }
    ensures calls { CallsCount }
    ensures pushes { PushesCount }
{}

/// So it is with all clerks of a world in which a message is delivered.
pub fn worlds_count_clerks()
    ensures { DeliveriesCountClerks }
{}
