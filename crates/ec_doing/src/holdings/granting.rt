// Ids that are granted, and tokens on them.
ghost use Rattle.std.specs.Prelude.{◌≡◌, ◌≤◌, ◌+◌, ◌++◌, IfOk, OnOk};
ghost use Rattle.ec_sessions.specs.Limits.{last_first_id};
ghost use Rattle.ec_sessions.specs.Slots.{run};
ghost use Rattle.ec_protocol.specs.Clerk as clerk;

use ec_base::{Hold, NoMemory, ObjId};
use ec_cache::Cache;
use ec_volume::Image;
use std::alloc::Global;

// Ids come in grants of so many.
const IDS_PER_GRANT: u32 = 16;

/// The ids of a grant.
pub fn run_from(alloc: Global, first: ObjId) -> Result<Vec<ObjId>, NoMemory>
    requires { first ≤ last_first_id }
    ensures { IfOk result (λ ids. ids.items ≡ run first 16) }
{
    let number = first.get();
    let mut ids = Vec::new(alloc);
    push_run(&mut ids, number, IDS_PER_GRANT)?;
    Ok(ids)
}

// Adds so many ids from `first` on.
fn push_run(ids: &mut Vec<ObjId>, first: u32, count: u32) -> Result<(), NoMemory>
    requires from_one { 1 ≤ first }
    requires last { first + count ≤ 4294967296 }
    ensures { OnOk result (ids.new.items ≡ ids.old.items ++ run first count) }
{
    for offset in 0..count {
        if let Some(id) = ObjId::new(first + offset) {
            ids.push(id)?;
        }
    }
    Ok(())
}

/// Write tokens on new ids.
pub fn take_each(cache: &mut Cache, number: u64, objs: &[ObjId]) -> Result<(), NoMemory>
    ensures { OnOk result (cache.new ≡ clerk.take_each number objs.now cache.old) }
{
    'objects: for obj in objs {
        cache.take(*obj, Hold::Write, number, Image::Gone)?;
    }
    Ok(())
}
