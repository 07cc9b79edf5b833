use ec_base::{List, ObjId};
use ec_sessions::Slot;

/// What a side's table on a disk says: the durable state but its images, and in which slot of the disk the image of each live
/// object stands, by rising ids.
#[derive(Drop)]
pub struct Table {
    pub next_id: u32,
    pub next_session: u64,
    pub epoch: u64,
    /// The sessions' slots of the clerks in order.
    pub slots: List<Option<Slot>>,
    /// Ids, and the numbers of the disk's slots.
    pub places: List<(ObjId, u32)>,
}

/// In which form a table and the images in its slots are spelled.
#[derive(Clone, Copy, Debug, Drop, PartialEq, Eq)]
pub enum Version {
    /// Images without owners.
    One,
    Two,
}
