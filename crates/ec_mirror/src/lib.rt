//! Two disks that hold the same content: a disk over both, which goes on where one of them fails.
#![tactic(auto)]

mod calls;
mod cutting;
mod kept;
mod laws;
mod mirror;
mod opening;
mod over;
mod pair;
mod parts;
mod pinned;
mod tally;

pub use ec_half::MirrorFault;
pub use mirror::Mirror;
pub use opening::NoMirror;
pub use over::TwoDisks;
pub use pinned::{PinnedMirror, Pins};
