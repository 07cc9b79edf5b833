//! What chosen operations need of the earlier ones.
mod needed;

pub use needed::Needed;
