//! What a call comes to on the objects that a clerk holds.
mod agreement;
mod resolve;
mod verdict;

pub use agreement::{
    ids_are_wanted_for_new_objects, losses_are_what_is_owed_on_the_touched,
    needs_are_the_first_without_a_token, outcomes_are_those_of_the_volume,
};
pub use resolve::evaluate;
pub use verdict::Verdict;
