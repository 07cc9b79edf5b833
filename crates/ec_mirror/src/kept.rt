// Which disks of a mirror count.

/// The disks that aren't dropped.
#[derive(Clone, Copy, Drop, PartialEq, Eq)]
pub(crate) enum Kept {
    Both,
    /// The first one has failed, and the second one isn't raised yet: a read gives what the second one has.
    Leaving,
    First,
    Second,
}
