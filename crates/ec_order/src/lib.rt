//! The order of operations, and their closures.
#![tactic(auto)]

pub mod needed;
pub mod numbers;
pub mod objmap;
pub mod objtable;
mod update;

pub use update::{before, is_overwrite, under};
