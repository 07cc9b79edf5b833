//! What a server keeps of the links that it serves: their bells, since when clerks have none, what it says of them, and that its net gets each back.
mod back;
mod bells;
mod telling;
mod watch;

pub use back::give_back;
pub use bells::Bells;
pub use telling::{
    Gone, tell_begin, tell_door, tell_end, tell_greeting, tell_no_door, tell_session_end,
};
pub use watch::Watch;
