//! A mounted clerk: the lanes of a script run at the same time over one clerk and its link, and their answers are written.
#![tactic(auto)]

mod calls;
mod greeting;
mod lending;
mod limits;
mod linked;
mod linker;
mod mounting;
mod script;
mod shown;
mod status;
mod telling;
mod waiting;
mod work;

pub use greeting::{Greeted, greet};
pub use limits::{MOST_BYTES, MOST_LINES};
pub use mounting::{ended_by, mount, place_in, refuse};
pub use script::Unread;
pub use shown::{old_boot_line, peer_line, shown_line};
pub use status::Status;
pub use telling::{Who, tell_start, tell_unreached};
