//! Tests of a mirror over disks in memory.
#[cfg(test)]
mod disks;
#[cfg(test)]
mod mirrors;
