//! Scripts without faults: the quiet of a world behind each line, the phases of a line that settles, and a measure that each delivery lowers; a
//! clerk's steps in such a line, and worlds that settle, seen as their scenes. The functions here carry facts alone and do nothing.
#![tactic(auto)]

mod bounds;
mod clerk_phases;
pub mod deliveries;
mod falls;
mod first_steps;
mod line_scenes;
mod scenes;
mod settling;
mod sums;
mod trials;

pub use bounds::{measures_are_bounded_where_lines_begin, rows_are_of_other_clerks};
pub use clerk_phases::{
    grants_are_taken, messages_begin_steps, old_tokens_go, openings_come_to_claims,
    steps_change_their_part, steps_try_one_thing, tries_lead_to_phases, tries_send_one_message,
};
pub use falls::{tokens_given_back_leave_what_is_left, wants_lower_what_is_left};
pub use first_steps::{pushes_begin, starts_greet};
pub use line_scenes::{
    calls_are_carried_out, lines_end_without_mail, openings_are_idle, pushes_keep_scenes,
    starts_keep_scenes,
};
pub use scenes::{calls_keep_scenes, deliveries_keep_scenes, ends_are_idle, phases_settle};
pub use settling::{messages_under_way_are_few, settling_lines_are_settled, steps_count_messages};
