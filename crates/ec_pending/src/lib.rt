//! The operations that a start of a clerk issued, and which of them no answered `fsync` or `sync`
//! covers.
#![tactic(auto)]

mod asked;
mod closed;
mod deferred;
mod early;
mod issue;
mod note;
pub mod outside;
pub mod overlay;
pub mod owes;
mod pending;

pub use asked::Asked;
pub use deferred::Deferred;
pub use issue::Issue;
