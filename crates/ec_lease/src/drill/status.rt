// How a drill with leases ends.

/// How a drill with leases ends.
#[derive(Clone, Copy, Debug, Drop, PartialEq, Eq)]
pub enum Status {
    /// The source was read to its end, and the output is whole.
    Done,
    /// A line of the script is outside the grammar, or names an operation, a message or a Lease that there
    /// isn't; the lines before it were carried out.
    BadLine,
    /// The source failed.
    SourceFault,
    /// The sink failed.
    SinkFault,
    /// The disk failed.
    DiskFault,
    /// The disk stands for no state.
    BadDisk,
    NoMemory,
    /// The script has too many bytes or lines, or left too many messages pending.
    Limit,
    /// A counter would pass its limit.
    Spent,
}
