//! Numbers of operations, and starts of clerks, each with an index.
mod numbers;
mod starts;

pub use numbers::Numbers;
pub use starts::{StartIndex, find_start, note_start};
