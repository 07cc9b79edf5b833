// What of a state shows that a record is in it.
ghost use Rattle.std.specs.Prelude.{◌≡◌};
ghost use Rattle.ec_marking.specs.Signs.{sign_of, is_there};

use ec_base::ClerkId;
use ec_durable::{Durable, Record};

/// What of a state shows that a record is in it: a state that takes the record doesn't have its sign, and the stepped one has it.
#[derive(Clone, Copy, Debug, Drop, PartialEq, Eq)]
pub enum Sign {
    /// The clerk's window has the batch.
    Batch(ClerkId, u64),
    /// A session above this one is the next.
    Open(u64),
    /// The clerk has no open session.
    End(ClerkId),
    /// An id above this one is the next.
    Ids(u32),
    /// The epoch is this one at least.
    Epoch(u64),
}

impl Sign {
    /// That of a record.
    pub fn of(change: &Record) -> Sign
        ensures { result ≡ sign_of change.now }
    {
        match change {
            Record::Batch(clerk, _, batch, _) => Sign::Batch(*clerk, *batch),
            Record::Open(_, _, session) => Sign::Open(session.0),
            Record::End(clerk, _) => Sign::End(*clerk),
            Record::Ids(_, _, _, first) => Sign::Ids(first.get()),
            Record::Epoch(epoch) => Sign::Epoch(*epoch),
        }
    }

    /// Whether the state has it.
    pub fn is_in(&self, state: &Durable) -> bool
        ensures { result ≡ is_there self.now state.now }
    {
        match self {
            Sign::Batch(clerk, batch) => match state.sessions.slot(*clerk) {
                Some(slot) => slot.window.has(*batch),
                None => false,
            },
            Sign::Open(session) => *session < state.next_session,
            Sign::End(clerk) => match state.sessions.slot(*clerk) {
                Some(slot) => !slot.is_open,
                None => true,
            },
            Sign::Ids(first) => *first < state.next_id,
            Sign::Epoch(epoch) => *epoch <= state.epoch,
        }
    }
}
