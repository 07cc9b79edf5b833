//! A clerk's step under way: what a call, a message and a resend do with what it holds, and what comes out.
#![tactic(auto)]

mod asking;
mod capacity;
mod deliveries;
mod doing;
mod endings;
pub mod holdings;
mod messages;
mod pushes;
mod recalls;
mod resends;
mod rooms;
mod rounds;
pub mod step;
mod tries;
mod wants;

pub use doing::{Doing, Tried};
