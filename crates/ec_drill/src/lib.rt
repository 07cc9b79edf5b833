//! Drills: a script's lines carried out on a world over a disk, and the transcript that they give.
#![tactic(auto)]

mod carrying;
mod closing;
mod event;
mod limits;
pub mod promise;
mod running;
mod script;
mod start;
mod status;
mod writing;

pub use limits::{DELIVERIES, MOST_BYTES, MOST_LINES, MOST_OBJECTS, MOST_PENDING};
pub use start::drill;
pub use status::Status;
