//! Histories of calls and losses on one uncached volume, the transcripts that show them, and which
//! of them are legal.
#![tactic(auto)]

mod entry;
pub mod laws;
mod rule;
mod shown;
mod watch;

pub use entry::{Answer, Entry};
pub use rule::Rule;
pub use shown::{LimitName, Shown};
pub use watch::Watch;
