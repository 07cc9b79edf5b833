// Orders of the objects of paths.
ghost use Rattle.std.specs.Prelude.{◌≡◌, ◌++◌, [], IfOk, OnOk};
ghost use Rattle.ec_plain.specs.Plain.{once_more, plain_forder};

use crate::call::Outcome;
use crate::outcome::{issues, refuses};
use crate::walk::{Walked, walk};
use ec_base::{List, NoMemory, ObjId, Path};
use ec_volume::{Look, Update};
use std::alloc::Global;

#[inline(never)]
pub(crate) fn plain_forder<V: Look>(
    alloc: Global,
    volume: &V,
    paths: &[Path],
) -> Result<Outcome, NoMemory>
    ensures { IfOk result (λ outcome. outcome ≡ plain_forder (V.images volume.now) paths.now [] []) }
{
    let mut objs = Vec::new(alloc);
    let mut touched = Vec::new(alloc);
    'paths: for path in paths {
        let Walked { to, read } = walk(alloc, volume, path.names())?;
        touched.extend_from_slice(&read)?;
        match to {
            Ok(obj) => once_more(obj, &mut objs)?,
            Err(refusal) => return Ok(refuses(refusal, touched)),
        }
    }
    let objs = List::of(objs);
    Ok(issues(Update::Order { objs }, touched))
}

// Each object once.
fn once_more(obj: ObjId, objs: &mut Vec<ObjId>) -> Result<(), NoMemory>
    ensures { OnOk result (objs.new.items ≡ once_more obj objs.old.items) }
{
    if !objs.contains(&obj) {
        objs.push(obj)?;
    }
    Ok(())
}
