//! All facts behind a clerk's steps: its functions that answer nothing, starts, greetings and sessions, calls under way and their answers; what is
//! named, which ids are free, the id 0 and refusals of room. Each function has an empty body, and its contract is a law.
mod answers;
mod calls;
mod doings;
mod frees;
mod joins;
mod names;
mod zeros;

pub use answers::{answers_stand, calls_are_tried};
pub use calls::{
    answers_cover_what_is_durable, answers_keep_calls, answers_may_follow, calls_begin,
    lines_are_answered_once, messages_are_quiet, servers_keep_calls, starts_keep_calls,
    steps_end_at_rest, steps_keep_calls, tries_answer_what_does_not_wait,
};
pub use doings::{
    clerks_may_call, clerks_may_give_back, clerks_may_send, clerks_may_take, clerks_stay_in_order,
    needs_are_named,
};
pub use frees::{clerks_keep_ids_apart, servers_keep_ids_apart};
pub use joins::{
    clerks_join_and_leave, clerks_may_start, clerks_take_what_others_sent,
    cut_off_starts_know_what_they_do, cut_off_starts_stay_known,
};
pub use names::{clerks_keep_names, names_stay, servers_keep_names};
pub use zeros::{rooms_are_refused_rightly, zeros_stay_out};
