// Single changes of a clerk or of the server.
ghost use Rattle.ec_coherence.specs.ChangeLaws.{BatchesPass, BatchesAreSent, BatchesAreSentAgain, OperationsAreKept, LateOperationsAreSeen, SessionsOpen, SessionsAreTaken, SessionsAreLeft, IdsAreGiven, IdsAreTaken, HeldMayChange};

/// Logs, batches, ids and images agree behind each change of a clerk's log: a batch that the server
/// has is passed, a new one is sent, one under way is sent again.
pub fn logs_change_in_agreement()
    ensures passed { BatchesPass }
    ensures sent { BatchesAreSent }
    ensures again { BatchesAreSentAgain }
{}

/// So they do behind an operation that is issued, in an open session or in one that has ended.
pub fn operations_are_issued_in_agreement()
    ensures kept { OperationsAreKept }
    ensures late { LateOperationsAreSeen }
{}

/// So they do where a session opens, is taken by its clerk, or is left.
pub fn sessions_change_in_agreement()
    ensures open { SessionsOpen }
    ensures taken { SessionsAreTaken }
    ensures left { SessionsAreLeft }
{}

/// So they do where ids are given or taken, and where what a clerk holds changes.
pub fn ids_and_holdings_change_in_agreement()
    ensures given { IdsAreGiven }
    ensures taken { IdsAreTaken }
    ensures held { HeldMayChange }
{}
