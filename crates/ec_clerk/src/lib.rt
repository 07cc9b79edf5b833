//! A clerk: it answers calls out of what it holds, and asks the server for what it lacks.
#![tactic(auto)]

mod clerk;
mod prompt;
pub mod running;

pub use clerk::{Clerk, MAX_TOKENS};
pub use prompt::held_call_is_prompt;
