//! All facts together, behind each step of a node and at the opening, and what follows of a whole run: it is lawful, with places as the ids of new
//! objects, and each world that it reaches is in order. Each function has an empty body, and its contract is a law.
#![tactic(auto)]

mod asked;
mod begins;
pub mod clerk_laws;
pub mod clerk_steps;
mod found;
mod fresh;
mod headline;
mod lawful;
mod opening;
mod places;
mod reached;
mod settles;
mod steps;
mod whole;

pub use asked::{nobody_says_goodbye, sessions_end_as_asked};
pub use begins::{calls_have_begun, first_calls_are_answered};
pub use found::{
    disks_open, records_are_in_doubt, restarts_stand, worlds_stand_behind_stops_and_restarts,
};
pub use fresh::{ids_stay_fresh, nodes_keep_ids_fresh};
pub use headline::{facts_show_lawful_runs, lines_go_on_to_tell};
pub use lawful::{
    askings_are_forgotten, clerks_take_messages, runs_are_lawful, steps_end_with_their_lines,
    tries_tell,
};
pub use opening::disks_open_whole;
pub use places::new_ids_are_places;
pub use reached::{legal_histories_are_fitting, reached_worlds_are_in_order, runs_stay_in_order};
pub use settles::{steps_come_to_tries, steps_end_whole};
pub use steps::worlds_stand_behind_events;
pub use whole::{
    crashes_keep_all_facts, servers_keep_all_facts, stops_and_restarts_keep_all_facts,
};
