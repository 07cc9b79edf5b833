// New objects.
ghost use Rattle.std.specs.Prelude.{◌≡◌, ◌≤◌, length, IfOk};
ghost use Rattle.ec_base.specs.Limits.{max_path_names};
ghost use Rattle.ec_plain.specs.Walk.{last_of};
ghost use Rattle.ec_plain.specs.Plain.{on_parent, make_in, plain_make};

use crate::call::{Outcome, Refusal};
use crate::object::entries_of;
use crate::outcome::{issues, refuses};
use crate::walk::{Walked, last_of, parent_of, walk};
use ec_base::{Duplicate, Name, NoMemory, ObjId};
use ec_volume::{Entries, Kind, Look, MAX_ENTRIES, Update};
use std::alloc::Global;

#[inline(never)]
pub(crate) fn plain_make<V: Look>(
    alloc: Global,
    volume: &V,
    kind: Kind,
    names: &[Name],
    fresh: ObjId,
) -> Result<Outcome, NoMemory>
    requires { length names.now ≤ max_path_names }
    ensures { IfOk result (λ outcome. outcome ≡ plain_make (V.images volume.now) kind names.now fresh) }
{
    match names {
        [] => Ok(refuses(Refusal::Root, Vec::new(alloc))),
        [_, ..] => make_below(alloc, volume, kind, names, fresh),
    }
}

fn make_below<V: Look>(
    alloc: Global,
    volume: &V,
    kind: Kind,
    names: &[Name],
    fresh: ObjId,
) -> Result<Outcome, NoMemory>
    requires some { 1 ≤ length names.now }
    requires few { length names.now ≤ max_path_names }
    ensures { IfOk result (λ outcome. outcome ≡ on_parent (V.images volume.now) names.now (make_in kind (last_of names.now) fresh)) }
{
    let Walked { to, read } = walk(alloc, volume, parent_of(names))?;
    match to {
        Err(refusal) => Ok(refuses(refusal, read)),
        Ok(dir) => match entries_of(volume, dir) {
            None => Ok(refuses(Refusal::NotDir(names.len() as u8 - 1), read)),
            Some(entries) => make_in(kind, last_of(names), fresh, dir, entries, read),
        },
    }
}

// A new object of this name in the directory.
fn make_in(
    kind: Kind,
    name: &Name,
    fresh: ObjId,
    dir: ObjId,
    entries: &Entries,
    mut read: Vec<ObjId>,
) -> Result<Outcome, NoMemory>
    ensures { IfOk result (λ outcome. outcome ≡ make_in kind name.now fresh dir entries.now read.items) }
{
    if entries.get(name).is_some() {
        return Ok(refuses(Refusal::Exists, read));
    }
    if entries.len() >= MAX_ENTRIES {
        return Ok(refuses(Refusal::DirFull, read));
    }
    read.push(fresh)?;
    let name = name.duplicate()?;
    Ok(issues(
        Update::Make {
            dir,
            name,
            obj: fresh,
            kind,
        },
        read,
    ))
}
