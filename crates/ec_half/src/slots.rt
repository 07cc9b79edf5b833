//! The generation of a disk that is a half of a mirror.
mod device;
mod slot;

pub use slot::{Slot, write_open, write_shut};
