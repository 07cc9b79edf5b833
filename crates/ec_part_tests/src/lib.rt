//! The tests of the parts of a server, a clerk and a drill, in one crate, so that each of them is proved once.
#![tactic(auto)]

#[cfg(test)]
mod cache;
#[cfg(test)]
mod chains;
#[cfg(test)]
mod disk;
#[cfg(test)]
mod frame;
#[cfg(test)]
mod journal;
#[cfg(test)]
mod layout;
#[cfg(test)]
mod link;
#[cfg(test)]
mod lock;
#[cfg(test)]
mod log;
#[cfg(test)]
mod pool;
#[cfg(test)]
mod recall;
#[cfg(test)]
mod report;
#[cfg(test)]
mod resolve;
#[cfg(test)]
mod sessions;
#[cfg(test)]
mod tokens;
