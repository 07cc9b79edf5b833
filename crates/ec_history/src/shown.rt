// The lines of a transcript.
use crate::entry::Answer;
use ec_base::{ClerkId, Counter, Duplicate, List, NoMemory, OpNo};
use ec_plain::Call;

/// What a script or a drill has too many of.
#[derive(Clone, Copy, Debug, Drop, PartialEq, Eq)]
pub enum LimitName {
    Bytes,
    Lines,
    Pending,
}

/// One line of a transcript. A first number is that of a script line, from 1.
#[derive(Drop)]
pub enum Shown {
    /// The call isn't answered in the step that begins it.
    Waits(u32, ClerkId, Call),
    /// A call's answer, and the number of its operation, if it issued one.
    Answered(u32, ClerkId, Call, Answer, Option<OpNo>),
    /// These operations of the clerk became durable.
    Durable(ClerkId, List<OpNo>),
    /// The clerk's session ended, and these of its operations are lost.
    Ended(ClerkId, List<OpNo>),
    /// The session of a start ended that crashed before it showed anything.
    Unseen(ClerkId),
    /// The clerk learned that its session ended and that these operations are lost.
    Told(ClerkId, List<OpNo>),
    Crashed(ClerkId),
    Stopped,
    Started,
    /// The script line had no effect; the text is `none`.
    Nothing,
    Unsettled,
    /// The last line: a script line outside the grammar, and its column from 1.
    Bad(u32, u32),
    /// The last line: the first bad place of the disk.
    DiskBad(u64),
    /// The last line: too many of these.
    Limit(LimitName, u64),
    /// The last line: this counter would pass its limit.
    Spent(Counter),
}

impl Duplicate for Shown {
    fn duplicate(&self) -> Result<Self, NoMemory> {
        Ok(match self {
            Shown::Waits(line, clerk, call) => Shown::Waits(*line, *clerk, call.duplicate()?),
            Shown::Answered(line, clerk, call, answer, op) => {
                Shown::Answered(*line, *clerk, call.duplicate()?, answer.duplicate()?, *op)
            }
            Shown::Durable(clerk, ops) => Shown::Durable(*clerk, ops.duplicate()?),
            Shown::Ended(clerk, ops) => Shown::Ended(*clerk, ops.duplicate()?),
            Shown::Unseen(clerk) => Shown::Unseen(*clerk),
            Shown::Told(clerk, ops) => Shown::Told(*clerk, ops.duplicate()?),
            Shown::Crashed(clerk) => Shown::Crashed(*clerk),
            Shown::Stopped => Shown::Stopped,
            Shown::Started => Shown::Started,
            Shown::Nothing => Shown::Nothing,
            Shown::Unsettled => Shown::Unsettled,
            Shown::Bad(line, column) => Shown::Bad(*line, *column),
            Shown::DiskBad(place) => Shown::DiskBad(*place),
            Shown::Limit(name, number) => Shown::Limit(*name, *number),
            Shown::Spent(counter) => Shown::Spent(*counter),
        })
    }
}
