//! What the lines of a transcript show of each clerk: as a `Watch`, and as a `Watching`, of which operations
//! that became durable are taken out fast.
#![tactic(auto)]

mod laws;
mod left;
mod watch;
mod watches;
pub mod watching;

pub use laws::starts_are_few;
pub use watch::{
    are_among, ends_running, follow, may_show, owner, same_numbers, shows, start, to_lose,
    unwatched,
};
pub use watches::{clerk_of, none_watched, note, watch_of};
