//! A clerk and its link behind a lock, which several threads share, and lanes of calls that run over it.
#![tactic(auto)]

mod act;
mod clerk;
mod fault;
mod hear;
mod jobs;
mod lane;
mod lanes;
mod node;
mod passes;
mod relinking;
mod shared;
mod state;
mod step;
mod swap;
mod waiting;

pub use ec_outs::send_all;
pub use fault::NodeFault;
pub use jobs::AllReplied;
pub use lane::{Gate, Reply};
pub use lanes::{run_lane_calls, run_lane_ops, run_lanes};
pub use shared::SharedClerk;
pub use state::{Closing, Node};
pub use step::{Deed, Step};
pub use swap::{Seen, Swap};
