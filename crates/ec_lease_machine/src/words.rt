//! The lines of scripts and transcripts that leases add.
mod line;
mod name;
mod row;
mod text;

pub use line::{LeaseLine, read_lease_line};
pub use text::{print_held, print_lease};
