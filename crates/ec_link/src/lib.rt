//! Links, which carry bodies between two ends.
#![tactic(auto)]

mod around;
mod asked;
mod bell;
mod happenings;
mod leaving;
mod link;
mod looks;
mod lull;
mod memory;
mod memory_net;
mod net;
mod rest;
mod spawn;
mod tcp;
mod tcp_bell;
mod tcp_door;
mod tcp_net;

pub use around::Around;
pub use bell::{Bell, MemBell};
pub use link::{Got, Link, Sent};
pub use memory::{MemLink, mem_pair};
pub use memory_net::{MemDoor, MemNet};
pub use net::{Net, NetFault};
pub use spawn::{FailSpawner, Job, Jobs, Spawned, Spawner, ThreadSpawner};
pub use tcp::TcpLink;
pub use tcp_bell::TcpBell;
pub use tcp_door::TcpDoor;
pub use tcp_net::TcpNet;
