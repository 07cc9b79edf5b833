//! Laws over the definitions of histories, transcripts and placing, on volumes that stay well formed, on ids renamed and exchanged for places, and on
//! what became of each operation: each function has an empty body, and its contract is a law.
mod accounts;
mod append;
mod closure;
mod example;
mod formed_calls;
mod formed_example;
mod formed_histories;
mod formed_updates;
mod insertion;
mod list_example;
mod new_ids;
mod overwrites;
mod placing;
pub mod printed;
mod projection;
mod pull;
mod removal;
mod renamed_example;
mod renamed_histories;
mod renamed_updates;
mod renamed_volumes;
mod steps;

pub use accounts::{lines_tell_what_became_of_operations, what_is_kept_is_told};
pub use append::{longer_history_is_legal, longer_transcript_is_placeable, next_number_is_new};
pub use closure::{
    closure_goes_by_the_rest, closure_holds_its_needs, closure_lists_the_least_set,
    first_members_hold_their_needs, needs_go_by_numbers, parts_hold_their_needs,
};
pub use example::premises_can_be_met;
pub use formed_calls::{calls_make_fitting_updates, calls_make_the_fresh_object_alone};
pub use formed_example::formed_premises_can_be_met;
pub use formed_histories::{
    closed_sets_leave_well_formed_volumes, formatted_is_a_base, fresh_ids_are_gone,
    untouched_losses_leave_well_formed_volumes, what_is_kept_is_well_formed,
};
pub use formed_updates::{fitting_updates_keep_volumes_well_formed, formatted_is_well_formed};
pub use insertion::{late_call_is_covered, late_call_is_legal, late_call_is_lost};
pub use list_example::{
    another_start_counts, closures_can_be_met, lists_can_fit, losses_can_be_untouched,
    overwrites_can_be_apart, sets_can_hold_their_needs,
};
pub use new_ids::{
    idle_ids_may_change, new_ids_are_places, new_ids_are_read, new_ids_grow,
    new_ids_stay_behind_late_answers,
};
pub use overwrites::{
    overwrites_change_places, overwrites_fit_by_length, overwrites_keep_the_stat,
    ranges_meet_at_a_place,
};
pub use placing::{
    each_line_is_placed, lines_above_cover, places_are_distinct, rising_lists_are_sets,
    watched_starts_are_counted,
};
pub use projection::{
    an_object_sees_its_own_updates, equal_projections_are_enough, longer_lists_go_on,
    operands_are_enough, strangers_change_places,
};
pub use pull::{
    needs_within_an_object, numbered_operations_come_first, what_holds_its_needs_comes_first,
    what_holds_its_needs_comes_next, what_holds_its_needs_fits_first,
};
pub use removal::{
    calls_touch_operands, what_a_closed_loss_leaves_fits, what_an_untouched_loss_leaves_fits,
    what_is_kept_fits,
};
pub use renamed_example::renamed_premises_can_be_met;
pub use renamed_histories::{
    renamed_histories_are_legal, renamed_histories_keep_the_same, renamed_histories_owe_the_same,
    renamed_losses_are_lawful, renamed_transcripts_are_covered,
};
pub use renamed_updates::renamed_updates_do_alike;
pub use renamed_volumes::{renamed_calls_come_to_the_same, renamed_volumes_have_one_shape};
pub use steps::{longer_history, longer_transcript};
