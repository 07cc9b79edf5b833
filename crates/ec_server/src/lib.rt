//! The server: what a message, an administrator's end and a start make of it.
//!
//! Each step is the function of its name of the protocol machine. What keeps the durable state is lent to each call.
#![tactic(auto)]

mod batches;
mod fault;
mod ids;
mod keeper;
mod limits;
mod messages;
mod server;
mod sessions;
mod state;
mod steps;
mod tokens;
mod wants;

pub use fault::ServerFault;
pub use keeper::{InMemory, KeepFault, Keeper};
pub use server::Server;
