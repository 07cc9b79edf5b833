//! Disks as the layers above see them: what a read gives, and what a crash may leave.
#![tactic(auto)]

pub mod arm;
mod disk;
mod file;
mod lent;
mod memory;
mod turns;
mod undo;

pub use disk::{Choice, CrashDisk, Disk, DiskAnswer, DiskLen};
pub use file::FileDisk;
pub use memory::{MemDisk, Step};
