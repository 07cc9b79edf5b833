//! All nodes and the pool of messages under one value: each event is one step of the protocol machine.
#![tactic(auto)]

mod answers;
mod clerks;
mod cutting;
mod leases;
mod lines;
mod network;
mod opening;
mod restarting;
mod serving;
mod shows;
mod step;
mod stopping;
mod world;

pub use world::World;
