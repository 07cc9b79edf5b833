//! Drills with leases: a script's lines carried out on a world with leases over a disk, and the transcript that they give.
mod carrying;
mod closing;
mod event;
mod limits;
mod running;
mod script;
mod start;
mod status;
mod writing;

pub use start::lease_drill;
pub use status::Status;
