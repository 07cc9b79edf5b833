//! Random scripts with leases, run through the machine: it shows what a simulator written independently of it shows. Each function carries facts alone
//! and does nothing.
pub mod crashes;
pub mod network;
pub mod stops;
