// The rules of a transcript.

/// A rule of a transcript, in the order in which they are tried.
#[derive(Clone, Copy, Debug, Drop, PartialEq, Eq)]
pub enum Rule {
    /// A line number has one answer, one clerk and one call.
    Shape,
    /// An operation's number is the next one of its start.
    Number,
    /// `lost` names exactly what is owed on the touched objects.
    Report,
    /// `noroom` is for a call that makes an object, where 16 more ids are too many.
    Room,
    /// The reply is that of the plain volume.
    Reply,
    /// `durable`, `ended`, `told` and `unseen` name what they may.
    Named,
    /// A lost operation wasn't covered by an answered `fsync` or `sync`.
    Covered,
    /// No other clerk's call touched an operand of a lost operation before the loss.
    Touched,
    /// No kept operation is ordered after a lost one.
    Closed,
    /// What is kept fits.
    Fits,
}
