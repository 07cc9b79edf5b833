use ec_base::{ClerkId, List, SessionNo};
use ec_history::Shown;
use ec_plain::Call;
use ec_protocol::{Event, World, WorldFault};
use thiserror::Error;

/// A Lease: the session that it names, and its moment.
#[derive(Drop)]
pub struct Lease {
    pub session: SessionNo,
    pub moment: u64,
}

/// What contracts see of a world with leases. Nothing builds it.
#[derive(Drop)]
pub struct LeaseWorld {
    pub world: World,
    /// How long a Lease runs, and by how much a clerk's clock differs from the server's at most.
    pub length: u64,
    pub most: u64,
    /// The server's clock. A clerk's is this one plus its skew minus `most`.
    pub now: u64,
    pub skews: List<(ClerkId, u64)>,
    /// Of each clerk all Leases issued to it, in order.
    pub issued: List<(ClerkId, List<Lease>)>,
    /// Of each clerk the greatest moment that the server noted for its last session, and the greatest
    /// Lease that it received for its own.
    pub noted: List<(ClerkId, Lease)>,
    pub leases: List<(ClerkId, Lease)>,
    /// Of each clerk the calls that are queued, in order, each with its line.
    pub queued: List<(ClerkId, List<(u32, Call)>)>,
}

/// One event of a world with leases.
#[derive(Drop)]
pub enum LeaseEvent {
    World(Event),
    /// The server's clock goes on.
    Tick(u64),
    Skew(ClerkId, u64),
    /// A Lease is issued that the clerk doesn't receive.
    Grant(ClerkId),
    /// The clerk receives the nth Lease issued to it, from 1.
    Hand(ClerkId, u32),
    /// Each clerk that can get a later Lease is issued one and receives it.
    Renew,
}

/// A line, or that the session of this clerk doesn't end before this moment.
#[derive(Drop)]
pub enum LeaseShown {
    Line(Shown),
    Held(ClerkId, u64),
}

#[derive(Clone, Copy, Debug, Drop, PartialEq, Eq, Error)]
pub enum LeaseFault {
    #[error("{0}")]
    World(WorldFault),
    #[error("no such Lease was issued to the clerk")]
    NoSuchLease,
    #[error("out of memory")]
    NoMemory,
}
