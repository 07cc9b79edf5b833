//! A lock round a value that keeps a list of steps, and passes that know a beginning of this list.
#![tactic(auto)]

mod lock;
mod passes;
mod plays;
mod traced;
mod types;
mod view;

pub use traced::{Held, Traced};
pub use types::{Note, Pass, TracedLock, Turn};
pub use view::{Stage, View};
