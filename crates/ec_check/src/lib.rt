//! Whether a transcript is legal, from its bytes.
#![tactic(auto)]

mod checking;
mod judged;

pub use checking::{CheckFault, Checked, check_transcript};
pub use ec_legal::transcript::MAX_TRANSCRIPT_BYTES;
