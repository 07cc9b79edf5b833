// The counters that end.

/// A counter that can be spent. `Round` and `Id` end at 4,294,967,295, the others at 2^62.
#[derive(Clone, Copy, Debug, Drop, PartialEq, Eq)]
pub enum Counter {
    Boot,
    Session,
    Epoch,
    Number,
    Op,
    Batch,
    CallNo,
    Ask,
    Pass,
    Id,
    Round,
}
