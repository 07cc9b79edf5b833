//! What a start of a clerk owes, its lost operations that are to be reported, and the rules of a call.
mod calls;
mod owes;
mod replies;
mod spans;

pub use calls::{Answered, broken_rule};
pub use owes::Owes;
