//! One link of a server, which is served to its end, and who ends the sessions of clerks that have no link.
#![tactic(auto)]

pub mod bells;
mod connection;
mod warden;

pub use connection::{Connection, Ended, serve_connection};
pub use warden::watch_over;
