// The objects of undurable operations.
ghost use Rattle.std.specs.Prelude.{◌≡◌, IfOk};
ghost use Rattle.ec_log.specs.OfChains.Slots.{live};
ghost use Rattle.ec_protocol.specs.Clerk as clerk;

use ec_base::{NoMemory, ObjId};
use ec_log::chains::Slot;
use ec_volume::operands;
use std::alloc::Global;

/// The operands of operations.
pub fn on_objects(alloc: Global, ops: &[Slot]) -> Result<Vec<ObjId>, NoMemory>
    ensures { IfOk result (λ objs. objs.items ≡ clerk.on_objects (live ops.now)) }
{
    let mut objs = Vec::new(alloc);
    'ops: for (_, update) in ops {
        let Some(update) = update else {
            continue;
        };
        objs.extend_from_slice(&operands(alloc, update)?)?;
    }
    Ok(objs)
}
