//! What an image of a disk stands for, and its first bad place; durable states stay well formed.
#![tactic(auto)]

mod kept;
mod laws;
pub mod table;

pub use kept::{formatted_states_are_well_formed, records_keep_states_well_formed};
pub use laws::{images_stand_for_one_state, laid_out_images_stand};
