//! What keeps a server's durable state on a disk, and the opening of one.
mod keeper;
mod opening;

pub use keeper::DiskKeeper;
pub use opening::open;
