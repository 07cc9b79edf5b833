//! Worlds in which calls wait before they begin, as those of held clerks do: a line shows that a call waits, and the call begins behind it. All facts of
//! whole runs hold of them. Each function has an empty body, and its contract is a law.
mod queued;
mod reached;

pub use queued::{queued_calls_keep_all_facts, worlds_stand_behind_queued_calls};
pub use reached::{
    queued_worlds_are_in_order, queued_worlds_hold_all_facts, reached_worlds_are_queued,
};
