//! The clerks that run in a world, each of which takes its steps where it stands, and their calls under way.
mod calls;
mod fault;
pub mod running;

pub use calls::{add_copy, is_answered, take_call};
pub use fault::StepFault;
