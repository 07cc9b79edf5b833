// The steps that the list of a shared server has. They stand in proofs alone: what a step says of a body or a message is a snapshot, which has no
// bytes.
use ec_base::{ClerkId, Counter};
use ec_protocol::Served;
use ec_wire::Msg;
use std::snapshot::Snapshot;

/// Why a server did nothing, and does nothing any more.
#[derive(Clone, Copy, Drop)]
pub enum Halt {
    DiskFailed,
    DiskStopped,
    Spent(Counter),
}

/// What was done.
#[derive(Drop)]
pub enum Deed {
    /// A message of the clerk was taken: the body that it came in, the message, and what came of it.
    Took(ClerkId, Snapshot<Vec<u8>>, Snapshot<Msg>, Snapshot<Served>),
    /// The first message of the clerk's outbox was sent to it.
    Gave(ClerkId, Snapshot<Msg>),
    /// A refusal was sent to the link whose Hello it answers.
    Refused(Snapshot<Msg>),
    /// The taking of a message of the clerk ended so.
    Halted(ClerkId, Snapshot<Vec<u8>>, Snapshot<Msg>, Halt),
    /// The administrator ended the clerk's open session, and this came of it.
    Ended(ClerkId, Snapshot<Served>),
    /// The end of the clerk's open session ended so.
    HaltedEnd(ClerkId, Halt),
    /// A mark: memory was wanting for a step, and from then on nothing is known of the server.
    Broke,
}

#[derive(Drop)]
pub struct Step {
    /// The number of the pass that made it.
    pub pass: u64,
    pub deed: Deed,
    /// Memory was wanting for what was to be sent by it, and from then on nothing is known of the outboxes.
    pub lost: bool,
}
