// The steps that the list of a shared clerk has. They stand in proofs alone: what a step says of a call or a body is a
// snapshot, which has no bytes.
use ec_base::Counter;
use ec_link::Sent;
use ec_log::Asked;
use ec_plain::Call;
use ec_protocol::Out;
use ec_wire::{Msg, WireFault};
use std::snapshot::Snapshot;

/// What was done to the clerk, or a mark, which changes nothing.
#[derive(Drop)]
pub enum Deed {
    /// A call was begun, with its number.
    Began(Snapshot<Call>, u64),
    /// A message was taken, and the body that it came in.
    Took(Snapshot<Vec<u8>>, Snapshot<Msg>),
    /// A batch was asked for.
    Picked(Snapshot<Asked>),
    /// It said goodbye.
    Parted,
    /// It sent again what it holds and what is outstanding.
    Resent,
    /// It greeted by a new link. What the steps behind it give and get is that link's.
    Linked,
    /// A mark: the link failed or was closed.
    Net,
    /// A mark: this body is no message.
    Peer(Snapshot<Vec<u8>>, WireFault),
    /// A mark: a length was above the limit.
    Long(u32),
    /// Marks: a counter is spent, so that a call wasn't begun, a message wasn't taken, a batch wasn't asked for.
    NotBegun(Snapshot<Call>, Counter),
    NotTaken(Snapshot<Vec<u8>>, Snapshot<Msg>, Counter),
    NotPicked(Snapshot<Asked>, Counter),
    /// A mark: memory was wanting for a step, and from then on nothing is known of the clerk.
    Broke,
}

impl Deed {
    /// Whether it's a mark that the link failed or was closed.
    pub fn is_net(&self) -> bool {
        match self {
            Deed::Net => true,
            _ => false,
        }
    }
}

#[derive(Drop)]
pub struct Step {
    /// The number of the pass that made it.
    pub pass: u64,
    pub deed: Deed,
    pub outs: Snapshot<Vec<Out>>,
    /// How many of the messages that came out were sent.
    pub sent: u64,
    /// How the sending ended. `Failed` is a mark that the link failed, and `NoMemory` one that memory was wanting for a
    /// message, for an answer or for the step itself.
    pub end: Sent,
    /// The clerk's floor after it.
    pub floor: u64,
}
