// What a record that a server commits shows, and how it's known from the state behind it.
ghost use Rattle.std.specs.Prelude.{◌≡◌, IfOk};
ghost use Rattle.ec_base.specs.Tables.{keys};
ghost use Rattle.ec_durable.specs.Durable.{slot};
ghost use Rattle.ec_protocol.specs.World as machine;
ghost use Rattle.ec_marking.specs.Marks.{IsMark};

use crate::signs::Sign;
use ec_base::trace::Trace;
use ec_base::{ClerkId, List, NoMemory, OpNo};
use ec_durable::{Durable, Record};
use ec_protocol::Noted;
use ec_volume::Update;
use std::alloc::Global;

/// A record that was committed, or may have been.
#[derive(Drop)]
pub struct Mark {
    /// What it shows.
    pub noted: Option<Noted>,
    pub sign: Sign,
    /// All records, with it as the last one.
    pub records: Trace<Record>,
}

impl Mark {
    /// The mark of a record on this state, behind these records.
    pub fn of(
        alloc: Global,
        change: &Record,
        state: &Durable,
        records: &Trace<Record>,
    ) -> Result<Mark, NoMemory>
        ensures { IfOk result (λ mark. IsMark mark change.now state.now records.now.items) }
    {
        Ok(Mark {
            noted: noted(alloc, change, state)?,
            sign: Sign::of(change),
            records: records.and(change),
        })
    }
}

fn noted(alloc: Global, change: &Record, state: &Durable) -> Result<Option<Noted>, NoMemory>
    ensures { IfOk result (λ noted. noted ≡ machine.noted state.now change.now) }
{
    match change {
        Record::Batch(clerk, _, _, ops) => {
            let numbers = numbers(alloc, ops.as_slice())?;
            Ok(Some(Noted::Durable(*clerk, numbers)))
        }
        Record::Open(clerk, _, _) => Ok(ended_in(*clerk, state)),
        Record::End(clerk, _) => Ok(ended_in(*clerk, state)),
        Record::Ids(_, _, _, _) => Ok(None),
        Record::Epoch(_) => Ok(None),
    }
}

fn numbers(alloc: Global, ops: &[(OpNo, Update)]) -> Result<List<OpNo>, NoMemory>
    ensures { IfOk result (λ ns. ns ≡ keys ops.now) }
{
    let numbers: Vec<OpNo> = ops.iter().map(|op| op.0).collect(alloc)?;
    Ok(List::of(numbers))
}

// The clerk's open session of this state, as one that ends.
fn ended_in(clerk: ClerkId, state: &Durable) -> Option<Noted>
    ensures { result ≡ machine.ended_in clerk (slot state.now clerk) }
{
    match state.sessions.slot(clerk) {
        Some(slot) if slot.is_open => Some(Noted::Ended(clerk, slot.age.boot)),
        _ => None,
    }
}
