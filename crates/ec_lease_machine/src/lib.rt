//! The machine of a world with leases: clocks, what the server notes and clerks keep, held clerks and their queues, as plain data, and scripts with what
//! it shows of them. The steps are functions in `specs/`. What code notes of them is in `book`, and the lines that leases add are in `words`; the other
//! functions here carry facts alone and do nothing.
#![tactic(auto)]

pub mod book;
pub mod lease_laws;
pub mod lease_runs;
pub mod lease_worlds;
pub mod queues;
pub mod rules;
mod script;
pub mod timely;
pub mod words;
mod world;

pub use script::LeaseLine;
pub use world::{Lease, LeaseEvent, LeaseFault, LeaseShown, LeaseWorld};
