//! A server's steps over a store and its disk, each record of which is marked: what it shows, and how it's known from the state behind it.
#![tactic(auto)]

pub mod keeper;
pub mod keeping;
mod marking;
mod marks;
mod signs;

pub use keeping::Came;
pub use marks::Mark;
pub use signs::Sign;
