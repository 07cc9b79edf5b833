//! What is noted of clocks and leases beside a world: the clocks, the Leases issued, the greatest moments that the server noted and clerks keep, and
//! the calls that are queued.
mod lease;
mod notes;
mod queues;

pub use lease::{LAST_TICK, Lease, MOST_LENGTH};
pub use notes::Book;
