//! A server and what keeps its state behind a lock, which the threads of several links share, with an outbox for each clerk.
#![tactic(auto)]

mod caller;
mod fault;
mod node;
mod outbox;
mod passes;
mod server;
mod shared;
mod state;
mod step;

pub use caller::{Caller, Refusal};
pub use fault::ServeFault;
pub use passes::{ServerNote, ServerPass};
pub use shared::{SharedServer, Turned};
pub use state::{Node, Outbox, Told};
pub use step::{Deed, Halt, Step};
