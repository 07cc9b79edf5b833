//! What a server lets happen: which batches are done and which may be written, whether all open sessions have claimed, which clerk's a session is,
//! the tokens on granted ids, and the wants that wait.
#![tactic(auto)]

mod batches;
mod claims;
mod clerks;
mod ids;
mod messages;
mod waiting;

pub use batches::{may_write, window_has};
pub use claims::{all_claimed, forget_claim};
pub use clerks::{clerk_in, read_slots};
pub use ids::{IDS_PER_GRANT, add_ids};
pub use messages::{Part, session_part};
pub use waiting::Waiting;
