//! The tests of bytes from outside, of volumes, tables and stores, and of disks that stop, in one crate, so that each of them is proved once.
#![tactic(auto)]

#[cfg(test)]
mod base;
#[cfg(test)]
mod checkpoints;
#[cfg(test)]
mod codes;
#[cfg(test)]
mod durable;
pub mod mirror_tests;
#[cfg(test)]
mod stops;
#[cfg(test)]
mod stores;
#[cfg(test)]
mod table;
#[cfg(test)]
mod volume;
#[cfg(test)]
mod volumes;
#[cfg(test)]
mod wire;
