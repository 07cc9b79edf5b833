// The object at a path, where the walk to it isn't refused.
ghost use Rattle.std.specs.Prelude.{◌≡◌, ◌≤◌, ℕ, List as Listed, length, IfOk};
ghost use Rattle.ec_base.specs.Limits.{max_path_names};
ghost use Rattle.ec_volume.specs.Entries.{Entries as EntryList};
ghost use Rattle.ec_volume.specs.Image.{entries_of};
ghost use Rattle.ec_plain.specs.Walk.{walk};
ghost use Rattle.ec_plain.specs.Plain.{on_entry};
ghost use Rattle.ec_plain.specs.Reach.{Reaches, Refused, MatchStep};
ghost use Rattle.ec_plain.specs.declared.call.Outcome.{Outcome as Outcomes};

use crate::call::{Outcome, Refusal};
use crate::object::{entries_of, is_gone};
use crate::outcome::refuses;
use crate::walk::{Walked, last_of, parent_of, walk};
use ec_base::{Name, NoMemory, ObjId};
use ec_volume::Look;
use std::alloc::Global;

// What a call goes on with, or what it comes to.
#[derive(Drop)]
pub(crate) enum Step<T> {
    Goes(T),
    Ends(Outcome),
}

// The object that the path reaches, and the objects read on the way.
pub(crate) fn object_at<V: Look>(
    alloc: Global,
    volume: &V,
    names: &[Name],
) -> Result<Step<(ObjId, Vec<ObjId>)>, NoMemory>
    requires { length names.now ≤ max_path_names }
    ensures { IfOk result (λ step. MatchStep step (λ found. Reaches (walk (V.images volume.now) names.now) found.0 found.1.items) (Refused (walk (V.images volume.now) names.now))) }
{
    let Walked { to, read } = walk(alloc, volume, names)?;
    Ok(match to {
        Ok(obj) => Step::Goes((obj, read)),
        Err(refusal) => Step::Ends(refuses(refusal, read)),
    })
}

// An object below its parent, and the objects read on the way.
#[derive(Drop)]
pub(crate) struct Found {
    pub(crate) dir: ObjId,
    pub(crate) obj: ObjId,
    pub(crate) read: Vec<ObjId>,
}

// The object that the path reaches below its parent.
pub(crate) fn entry_at<V: Look>(
    alloc: Global,
    volume: &V,
    names: &[Name],
) -> Result<Step<Found>, NoMemory>
    requires some { 1 ≤ length names.now }
    requires few { length names.now ≤ max_path_names }
    ensures { IfOk result (λ step. MatchStep step
        (λ found. (f : ℕ → EntryList → ℕ → Listed ℕ → Outcomes) → on_entry (V.images volume.now) names.now f ≡ f found.dir (entries_of (V.images volume.now found.dir)) found.obj found.read.items)
        (λ outcome. (f : ℕ → EntryList → ℕ → Listed ℕ → Outcomes) → on_entry (V.images volume.now) names.now f ≡ outcome)) }
{
    let Walked { to, mut read } = walk(alloc, volume, parent_of(names))?;
    let dir = match to {
        Err(refusal) => return Ok(Step::Ends(refuses(refusal, read))),
        Ok(dir) => dir,
    };
    let Some(entries) = entries_of(volume, dir) else {
        return Ok(Step::Ends(refuses(Refusal::NotDir(names.len() as u8 - 1), read)));
    };
    let Some(obj) = entries.get(last_of(names)) else {
        return Ok(Step::Ends(refuses(Refusal::NotFound(names.len() as u8), read)));
    };
    read.push(obj)?;
    if is_gone(volume, obj) {
        return Ok(Step::Ends(refuses(Refusal::NotFound(names.len() as u8), read)));
    }
    Ok(Step::Goes(Found { dir, obj, read }))
}
