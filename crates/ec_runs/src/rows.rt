//! Worked transcripts, run through the definitions: those that must be legal are, and changed ones
//! are not. Each function carries facts alone and does nothing.
pub mod alone;
pub mod calls;
pub mod durable;
pub mod ended;
pub mod long;
pub mod orders;
pub mod placed;
pub mod stored;
pub mod updates;
pub mod wrong_lines;
pub mod wrong_losses;
pub mod wrong_replies;
