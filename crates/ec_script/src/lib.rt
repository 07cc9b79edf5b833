//! Scripts: their lines, and the grammar of a line.
#![tactic(auto)]

pub mod generator;
mod keyword;
mod laws;
mod line;
pub mod made;
mod place;
mod script;

pub use laws::one_reading;
pub use line::{Line, LineFault, fault_at, read_lane, read_line};
pub use place::last_column;
pub use script::{count_lines, split_line};
