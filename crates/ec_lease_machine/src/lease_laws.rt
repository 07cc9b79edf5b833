//! What leases give: what was issued, noted and received agrees with the sessions on the disk behind each step, so a clerk that isn't held has nothing
//! untold; and what a clerk without a session answers no volume changes. Each function has an empty body, and its contract is a law.
mod leases;
mod sessions;

pub use leases::{leases_agree_behind_each_step, unheld_clerks_are_told};
pub use sessions::{
    answers_outside_are_bare, events_leave_slots, open_sessions_are_told,
    resting_clerks_answer_nothing, sessions_stay,
};
