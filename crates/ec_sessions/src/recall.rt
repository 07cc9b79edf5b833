//! The wants that wait for tokens, and the grants and recalls that are due to them.
mod due;
mod laws;
mod recalls;
mod want;

pub use laws::{grants_are_clear, grants_shorten, no_grant_settles};
pub use recalls::Recalls;
pub use want::{Action, Want};
