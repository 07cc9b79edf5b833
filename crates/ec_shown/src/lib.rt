//! Reading transcript lines.
#![tactic(auto)]

mod answer;
mod call;
mod laws;
mod line;
mod list;
mod name;
mod number;
mod row;
mod text;

pub use laws::one_reading;
pub use line::read;
