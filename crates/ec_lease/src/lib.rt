//! A world with leases: clocks, what the server notes and clerks keep, held clerks and their queues, over the world of all nodes. Each event is one step
//! of the machine of leases.
#![tactic(auto)]

pub mod drill;
mod events;
mod issuing;
mod queues;
mod shows;
mod world;

pub use ec_lease_machine::{LeaseEvent, LeaseFault, LeaseShown};
pub use world::LeaseWorld;
