//! The words of a mount table: a path, `=` and an address for each volume.
#![tactic(auto)]

mod mounts;
mod paths;
pub mod route;

pub use mounts::{MAX_MOUNTS, are_mounts, clerk_of_mounts, mount_of};
