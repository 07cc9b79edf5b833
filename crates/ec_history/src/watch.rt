// What the lines of a transcript show of one clerk.
use ec_base::{List, OpNo};

/// What the lines so far show of one clerk. Its starts count from 1.
#[derive(Drop)]
pub struct Watch {
    /// How many starts began.
    pub starts: u64,
    /// Whether the last one is running.
    pub running: bool,
    /// The start whose session is open.
    pub open_start: Option<u64>,
    /// The operations of this session that no durable line named.
    pub undurable: List<OpNo>,
    /// The running start's operations that no session has yet, since no answer showed one.
    pub early: List<OpNo>,
    /// What the running start lost with its session and was not told yet, with its later operations.
    pub untold: Option<List<OpNo>>,
    /// Whether a start crashed.
    pub crashed: bool,
}
