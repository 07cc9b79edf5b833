// What rows met.
use ec_clerknode::{NodeFault, Reply};

/// What a row met.
#[derive(Drop)]
pub enum Seen {
    /// It was made at the volume at this place, which replied this.
    To(usize, Reply),
    /// The path of this number, from 1, is the first without a volume.
    NoVolume(u8),
    /// Each path has a volume, and two have different ones.
    CrossVolume,
    /// A sync, with the reply of each volume.
    All(Vec<Reply>),
}

/// A fault of a row, and what volumes had replied before it where the row is a sync.
#[derive(Drop)]
pub struct Cut {
    pub replies: Vec<Reply>,
    pub fault: NodeFault,
}
