//! Which transcripts are legal.
#![tactic(auto)]

mod ahead;
mod fronts;
mod history;
mod judging;
mod placing;
pub mod transcript;

pub use ec_judge::HistoryFault;
pub use ec_lines::lines_at_fault_have_no_history;
pub use history::{History, place};
pub use judging::{Stop, Trial};
