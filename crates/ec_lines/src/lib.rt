//! Which lines of a transcript may follow those above them, and where its calls began.
#![tactic(auto)]

mod calls;
mod fault;
mod following;
mod index;
mod laws;
mod lines;
mod seen;

pub use fault::PlaceFault;
pub use following::{Following, are_told, begins, follow, none_followed};
pub use laws::lines_at_fault_have_no_history;
pub use seen::Seen;
