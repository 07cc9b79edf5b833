//! Which volumes are well formed, and which tables and images are those of a well-formed state.
mod fits;
mod lists;
mod numbers;
mod well_formed;

pub use well_formed::{is_well_formed, is_well_formed_volume};
