// When steps of the server and of clerks spend no counter.
ghost use Rattle.ec_machine_laws.specs.Unspent.{CallsSpendNothing, MessagesSpendNothing, ServersSpendNothing};

/// A server that has room for a session, ids and the numbers of tokens takes a message without spending a counter.
pub fn servers_spend_nothing()
    ensures { ServersSpendNothing }
{}

/// A clerk whose counters are below their limits takes a message, or begins a call, without spending one.
pub fn clerks_spend_nothing()
    ensures messages { MessagesSpendNothing }
    ensures calls { CallsSpendNothing }
{}
