//! Deliveries while a script without faults settles: each leads from a phase of the line to a phase, and less is left, so a line settles in time, and
//! makes durable only what it asks for. Each function has an empty body, and its contract is a law.
mod batches;
mod claims;
mod clerk_deliveries;
mod holders;
mod idle;
mod leaving;
mod line_deliveries;
mod line_runs;
mod orderly;
mod phases;
mod sessions;
mod tokens;
mod wants;
mod windows;
mod work;
mod write_behind;

pub use batches::{batches_are_delivered, batches_are_of_phases};
pub use claims::claims_are_delivered;
pub use clerk_deliveries::{
    clerks_go_on, durable_batches_are_taken, ids_are_taken, recalls_are_taken, refusals_are_taken,
};
pub use holders::{holders_are_at_work, recalled_holders_give_back};
pub use idle::{changes_leave_other_sessions, idle_clerks_stay_idle};
pub use leaving::old_tokens_leave;
pub use line_deliveries::{deliveries_have_next, deliveries_lead_on};
pub use line_runs::{
    deliveries_meet_no_limit, lines_settle, lines_settle_or_end, runs_settle_alike,
};
pub use orderly::{records_are_committed_in_order, tokens_change_in_order};
pub use phases::deliveries_go_on;
pub use sessions::{greetings_are_delivered, requests_for_ids_are_delivered};
pub use tokens::recalled_tokens_are_delivered;
pub use wants::wants_are_delivered;
pub use windows::next_batches_move_windows;
pub use work::{clerks_at_work_stay_at_work, mail_goes_on};
pub use write_behind::{
    deliveries_stay_behind, durable_lines_are_asked_for, lines_begin_behind, own_operations_wait,
    shown_volumes_are_seen, works_of_lines_write_behind,
};
