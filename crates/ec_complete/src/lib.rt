//! Scripts without faults, in worlds of which all facts hold: a line's call may begin, what its next message needs is there, the line can settle, and
//! a script whose lines settle is answered as one plain volume answers it; each script without faults goes on so line by line, with room for its new
//! objects, and makes durable only what its lines ask for. Each function has an empty body, and its contract is a law.
#![tactic(auto)]

mod agreed_calls;
pub mod agreed_lines;
mod clerk_rooms;
mod complete;
mod faultless_lines;
mod followed_lines;
mod line_begins;
mod line_calls;
mod line_counts;
mod line_steps;
mod line_worlds;
mod plain_ids;
mod plain_scripts;
mod quiet_worlds;
mod script_rooms;
mod scripts_behind;
mod settled_lines;

pub use agreed_calls::{agreed_calls_may_go, lines_are_about_what_they_touch};
pub use clerk_rooms::{clerks_keep_stock, servers_grant_room};
pub use complete::{runs_settle, runs_that_settle_are_plain};
pub use faultless_lines::{
    issued_pushes_go, lines_go_on, lines_go_through, openings_are_ready, scripts_are_plain,
    scripts_go_on,
};
pub use followed_lines::{
    first_steps_begin_behind, lines_stay_worked, worked_lines_see, works_are_of_lines,
};
pub use line_begins::{begun_calls_are_such_steps, first_steps_leave_what_is_kept};
pub use line_calls::{
    calls_come_on_line, calls_leave_what_is_kept, calls_may_begin, starts_come_on_line,
    starts_leave_what_is_kept,
};
pub use line_counts::{counters_are_spare, ids_stay_given};
pub use line_steps::{lines_leave_what_is_kept, lines_stay_on};
pub use line_worlds::next_messages_are_taken;
pub use plain_ids::{answers_tell_operations, ids_make_no_difference};
pub use plain_scripts::plain_scripts_are_complete;
pub use quiet_worlds::idle_worlds_are_quiet;
pub use script_rooms::{askings_find_room, lines_keep_room};
pub use scripts_behind::{drills_write_behind, runs_write_behind};
pub use settled_lines::lines_can_settle;
