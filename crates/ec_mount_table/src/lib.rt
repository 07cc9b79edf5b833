//! Calls of a script over several volumes at mount paths, each with a server that is called by its address.
#![tactic(auto)]

mod ending;
mod mounting;
mod reach;
mod rows;
mod script;
mod seen;
mod shown;
mod work;

pub use mounting::mount_table;
