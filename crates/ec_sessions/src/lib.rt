//! Sessions of sixteen clerks, the windows of their batches and the ids reserved to them.
#![tactic(auto)]

mod laws;
pub mod recall;
mod sessions;
mod slot;
pub mod tokens;
mod unspent;
mod window;

pub use laws::{ids_behind, marks_of_a_window, one_slot, one_spent};
pub use sessions::Sessions;
pub use slot::{Greeting, Slot};
pub use window::{Marked, Window};
