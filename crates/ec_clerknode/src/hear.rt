// What is done with what the link gave.
ghost use Rattle.std.specs.Prelude.{◌≡◌, IfOk, IfSome, Some};
ghost use Rattle.ec_link.specs.declared.link.Got.TheVariants.{Body};
ghost use Rattle.ec_clerknode.specs.Closed.{Hears, IsMark};

use crate::act::{Act, Greeted};
use crate::clerk::{Refused, take};
use crate::fault::NodeFault;
use crate::step::Deed;
use ec_base::NoMemory;
use ec_clerk::Clerk;
use ec_link::Got;
use ec_wire::{WireFault, decode};
use std::alloc::Global;
use std::snapshot::Snapshot;

/// What is done with what the link gave: with nothing, nothing. A link that failed, a body that is no message and a counter
/// that is spent are faults of what is done. The error is want of memory, behind which the clerk is followed no more.
pub fn hear(clerk: &mut Clerk, alloc: Global, got: Got) -> Result<Option<Act>, NoMemory>
    ensures hears { IfOk result (λ made. Hears clerk.old got clerk.new made) }
    ensures marked { IfOk result (λ made. IfSome made (λ act. IfSome act.fault IsMark)) }
{
    match got {
        Got::Nothing => Ok(None),
        Got::Closed => Ok(Some(Act::mark(alloc, Deed::Net, NodeFault::Net))),
        Got::Failed => Ok(Some(Act::mark(alloc, Deed::Net, NodeFault::Net))),
        Got::Long(length) => Ok(Some(Act::mark(
            alloc,
            Deed::Long(length),
            NodeFault::Long(length),
        ))),
        Got::NoMemory => Err(NoMemory),
        Got::Body(body) => Ok(Some(hear_body(clerk, alloc, body)?)),
    }
}

fn hear_body(clerk: &mut Clerk, alloc: Global, body: Vec<u8>) -> Result<Act, NoMemory>
    ensures hears { IfOk result (λ act. Hears clerk.old (Body body) clerk.new (Some act)) }
    ensures marked { IfOk result (λ act. IfSome act.fault IsMark) }
{
    let bytes = Snapshot::of(&body);
    match decode(alloc, &body) {
        Ok(msg) => {
            let shot = Snapshot::of(&msg);
            let greeted = Greeted::by(&msg);
            match take(clerk, msg) {
                Ok(outs) => Ok(Act::took(Deed::Took(bytes, shot), outs, greeted)),
                Err(Refused::Spent(counter)) => Ok(Act::mark(
                    alloc,
                    Deed::NotTaken(bytes, shot, counter),
                    NodeFault::Spent(counter),
                )),
                Err(Refused::NoMemory) => Err(NoMemory),
            }
        }
        Err(WireFault::NoMemory) => Err(NoMemory),
        Err(fault) => Ok(Act::mark(alloc, Deed::Peer(bytes, fault), NodeFault::Peer(fault))),
    }
}
