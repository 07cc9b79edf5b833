use ec_base::ClerkId;
use ec_protocol::Line;

/// A line of a script with leases: one of a drill's, or one of clocks and leases.
#[derive(Drop)]
pub enum LeaseLine {
    Drill(Line),
    Tick(u64),
    Skew(ClerkId, u64),
    Grant(ClerkId),
    Hand(ClerkId, u32),
}
