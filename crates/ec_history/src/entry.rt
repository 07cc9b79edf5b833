// What a history is made of.
use ec_base::{ClerkId, Duplicate, List, NoMemory, OpNo};
use ec_plain::{Call, Reply};

/// What a call was answered.
#[derive(Drop)]
pub enum Answer {
    Reply(Reply),
    /// No room for a new object: how many objects live, and how many ids are reserved.
    NoRoom(u32, u32),
    /// These operations on objects that the call touched are lost.
    Lost(List<OpNo>),
}

/// An entry of a history. A start of a clerk runs from a boot to its crash; `boot` counts the
/// clerk's starts in the transcript, from 1.
#[derive(Drop)]
pub enum Entry {
    /// A call and its answer. `line` is its number in the script. `begun` is the place, from 1, of
    /// the last transcript line before the call's first one that gave an entry of this start, or 0.
    Call {
        clerk: ClerkId,
        boot: u64,
        line: u32,
        begun: u32,
        call: Call,
        answer: Answer,
        op: Option<OpNo>,
    },
    /// Operations of one start are lost.
    Loss {
        clerk: ClerkId,
        boot: u64,
        ops: List<OpNo>,
    },
}

impl Duplicate for Answer {
    fn duplicate(&self) -> Result<Self, NoMemory> {
        Ok(match self {
            Answer::Reply(reply) => Answer::Reply(reply.duplicate()?),
            Answer::NoRoom(live, reserved) => Answer::NoRoom(*live, *reserved),
            Answer::Lost(ops) => Answer::Lost(ops.duplicate()?),
        })
    }
}
