//! Random scripts, and scripts with a stop in each device call, run through the machine: it shows what a simulator written
//! independently of it shows. Each function carries facts alone and does nothing.
#![tactic(auto)]

pub mod first_crashes;
pub mod first_network;
pub mod first_plain;
pub mod first_stops;
pub mod fourth_crashes;
pub mod fourth_network;
pub mod fourth_plain;
pub mod fourth_stops;
pub mod rows;
pub mod second_crashes;
pub mod second_network;
pub mod second_plain;
pub mod second_stops;
pub mod stops_before;
pub mod stops_behind;
pub mod third_crashes;
pub mod third_network;
pub mod third_plain;
pub mod third_stops;
