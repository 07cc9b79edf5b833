//! What is done with what comes out of one step of a clerk: its messages are sent, and its answers are kept.
#![tactic(auto)]

mod kept;
mod patience;
mod sending;

pub use kept::{Kept, keep_all, known_old, take_kept};
pub use patience::Patience;
pub use sending::{send_all, send_resting};
