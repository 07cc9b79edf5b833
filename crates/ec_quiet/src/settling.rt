// Lines of a script without faults that settle: how many messages there are, and which lines aren't shown.
ghost use Rattle.ec_quiet.specs.SettlingCounts.{CallsCount, DeliveriesCount, MailIsPending, MessagesAreFew, PushesCount, SettledLines};

/// A measure bounds the messages under way, and just those are pending.
pub fn messages_under_way_are_few()
    ensures few { MessagesAreFew }
    ensures pending { MailIsPending }
{}

/// In a delivery one message more is delivered; in a call or a push each message that is sent stays pending.
pub fn steps_count_messages()
    ensures deliveries { DeliveriesCount }
    ensures calls { CallsCount }
    ensures pushes { PushesCount }
{}

/// Neither a delivery nor a call nor a push shows that messages didn't settle.
pub fn settling_lines_are_settled()
    ensures { SettledLines }
{}
