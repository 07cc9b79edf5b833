//! Calls on one plain volume, which knows no cache, token or failure.
#![tactic(auto)]

mod answer;
mod call;
mod file;
mod forder;
mod make;
mod object;
mod outcome;
mod reached;
mod remove;
mod rename;
mod step;
mod walk;

pub use answer::plain;
pub use call::{Call, MAX_READ_BYTES, Outcome, Refusal, Reply};
