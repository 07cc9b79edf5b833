//! A server over a net: it opens a disk, and serves each link that comes in a thread of its own.
#![tactic(auto)]

mod ending;
mod opening;
mod serving;
mod tending;
pub mod threads;

pub use ending::Ending;
pub use serving::{Listening, serve};
