//! Judges histories, entry by entry.
#![tactic(auto)]

mod carried;
mod checking;
mod covers;
mod examples;
mod fault;
mod judge;
mod judging;
mod laws;
mod losses;
mod rebuilt;
mod starts;
mod tail;
mod touches;

pub use checking::{check, kept, owed};
pub use examples::each_rule_can_break;
pub use fault::HistoryFault;
pub use judging::Judging;
pub use laws::{faults_are_single, legal_is_without_fault};
