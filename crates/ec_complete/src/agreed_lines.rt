//! Lines of scripts without faults, in worlds where the invariant holds: deliveries go on, few tokens have to stay, a call that begins or waits may
//! go on and is answered once, and durable lines stay in closures of what was issued. Each function has an empty body, and its contract is a law.
mod agreed_closures;
mod agreed_phases;
mod clerk_calls;
mod clerk_counts;
mod clerk_evictions;
mod clerk_lines;
mod line_answers;
mod placed_closures;

pub use agreed_closures::{
    durable_lines_stay_in_closures, first_steps_stay_in_closures, lines_settle_in_closures,
    lines_tell_what_is_kept,
};
pub use agreed_phases::{deliveries_go_on_in_worlds, grants_are_numbered, scenes_are_seen};
pub use clerk_calls::calls_may_go;
pub use clerk_counts::{clerks_count_what_they_send, worlds_count_clerks};
pub use clerk_evictions::crowded_steps_evict_old_tokens;
pub use clerk_lines::calls_begin;
pub use line_answers::{calls_are_answered_once, lines_answer_nothing_else};
pub use placed_closures::{lines_write_behind, write_behind_is_placed};
