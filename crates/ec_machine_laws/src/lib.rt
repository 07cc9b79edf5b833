//! Laws on the parts of the protocol machine and on its steps: what a clerk picks to be made durable, what calls need and touch, how the server
//! serves, what steps count and spend, and which answers are plain. Each function has an empty body, and its contract is a law.
#![tactic(auto)]

pub mod applied_once;
mod closures;
mod covers;
mod evictions;
mod holders;
mod logs;
mod need_example;
mod needs;
pub mod node_laws;
mod pick_example;
mod picks;
mod plain_answers;
mod records;
mod rests;
mod rounds;
mod server_counts;
mod steps;
mod unspent;

pub use closures::{
    closures_among_the_undurable_are_within, closures_grow_with_the_list,
    full_batches_or_whole_closures, picks_begin_where_no_batch_is_under_way,
    what_is_asked_for_is_in_its_closure,
};
pub use covers::covered_operations_are_done;
pub use evictions::{
    evictions_are_of_tokens_that_are_too_many, older_tokens_are_evicted, pinned_tokens_are_few,
    the_other_tokens_stay,
};
pub use holders::{
    changes_stay_with_their_object, changes_stay_with_their_session,
    conflicts_are_one_writer_or_readers, given_back_tokens_conflict_no_more, other_tokens_stay,
};
pub use logs::{
    batches_stay_the_same, logs_stay_in_order, losses_are_what_the_window_lacks,
    windows_agree_with_logs,
};
pub use need_example::needs_can_come;
pub use needs::{
    calls_touch_few_objects, ids_are_needed_by_creates, needed_objects_are_touched,
    needs_are_not_held,
};
pub use pick_example::{picks_can_come, premises_can_be_met};
pub use picks::{
    nothing_is_asked_where_it_settles, picks_go_by_the_closure, picks_hold_their_needs,
    the_first_asked_is_the_least, what_was_asked_is_done,
};
pub use plain_answers::legal_lines_are_answered_plainly;
pub use records::{
    batches_change_one_slot, grants_of_ids_change_one_slot, openings_change_one_slot,
};
pub use rests::{logs_have_what_is_left, windows_tell_what_is_durable};
pub use rounds::{
    one_want_is_granted_or_recalled, one_want_is_served,
    serving_changes_nothing_where_nothing_is_due, serving_ends_with_nothing_due,
    told_holders_are_no_news,
};
pub use server_counts::{
    batches_are_flushed, counters_rise_with_messages, durable_lines_are_flushed,
    worlds_count_messages,
};
pub use steps::{
    backs_let_wants_be_granted, batches_are_committed_and_answered, greetings_open_sessions,
    messages_of_claimed_sessions_are_taken, recalls_and_grants_are_sent,
    rooms_are_granted_or_refused, second_claims_change_nothing, wants_are_granted_or_wait,
};
pub use unspent::{clerks_spend_nothing, servers_spend_nothing};
