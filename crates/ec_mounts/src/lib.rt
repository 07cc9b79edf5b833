//! Several volumes at mount paths: a call goes to the volume of its paths, and the others take turns while it waits.
#![tactic(auto)]

mod beside;
mod calling;
mod losses;
mod mounts;
mod part;

pub use calling::{make_at, names_of, path_at};
pub use mounts::{MountAnswer, Mounts};
pub use part::{Part, run_parts};
