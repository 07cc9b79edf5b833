//! The store: the durable state on a disk, which each committed record changes whole or not at all.
#![tactic(auto)]

mod fault;
mod opening;
mod plan;
mod reading;
mod replay;
mod stepping;
mod store;

pub use fault::StoreFault;
pub use store::Store;
