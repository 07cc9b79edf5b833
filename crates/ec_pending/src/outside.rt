//! Which objects some operations are on, to tell which earlier ones these are ordered after.
mod outside;

pub use outside::Outside;
