//! One disk of a mirror: its content stands behind a header that says its generation.
#![tactic(auto)]

mod copying;
mod fault;
mod half;
mod header;
mod opening;
pub mod slots;

pub use copying::{Joined, join, join_from, lengthen};
pub use fault::{MirrorFault, done, unmade};
pub use half::Half;
pub use header::{Found, Generation, MOST, NEW, begin, look_at};
pub use opening::generations_of;
