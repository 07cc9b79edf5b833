//! The links of a server, each of which is served in a thread of its own.
mod connections;
mod threads;

pub use connections::{Connections, Tally};
pub use threads::{Ran, run_all};
