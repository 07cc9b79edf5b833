// Walks along paths.
ghost use Rattle.std.specs.Prelude.{◌≡◌, ◌≤◌, ◌+◌, ◌++◌, length, IfOk, OnOk};
ghost use Rattle.ec_base.specs.Limits.{max_path_names};
ghost use Rattle.ec_plain.specs.Walk.{walk, walk_from, parent_of, last_of};
ghost use Rattle.ec_plain.specs.Reach.{reached};

use crate::call::Refusal;
use crate::object::is_gone;
use ec_base::{Name, NoMemory, ObjId};
use ec_volume::{Image, Look};
use std::alloc::Global;

// Where a walk came to, and the objects whose images it read.
#[derive(Drop)]
pub(crate) struct Walked {
    pub(crate) to: Result<ObjId, Refusal>,
    pub(crate) read: Vec<ObjId>,
}

pub(crate) fn walk<V: Look>(alloc: Global, volume: &V, names: &[Name]) -> Result<Walked, NoMemory>
    requires { length names.now ≤ max_path_names }
    ensures to { IfOk result (λ w. reached w.to ≡ (walk (V.images volume.now) names.now).to) }
    ensures read { IfOk result (λ w. w.read.items ≡ (walk (V.images volume.now) names.now).read) }
{
    let mut read = Vec::new(alloc);
    let to = walk_from(volume, 0, ObjId::root(), names, &mut read)?;
    Ok(Walked { to, read })
}

// The walk from an object that `place` names led to.
fn walk_from<V: Look>(
    volume: &V,
    place: u8,
    id: ObjId,
    names: &[Name],
    read: &mut Vec<ObjId>,
) -> Result<Result<ObjId, Refusal>, NoMemory>
    requires { place + length names.now ≤ max_path_names }
    ensures to { IfOk result (λ to. reached to ≡ (walk_from (V.images volume.now) place id names.now).to) }
    ensures read { OnOk result (read.new.items ≡ read.old.items ++ (walk_from (V.images volume.now) place id names.now).read) }
{
    read.push(id)?;
    match names {
        [] => Ok(if is_gone(volume, id) {
            Err(Refusal::NotFound(place))
        } else {
            Ok(id)
        }),
        [name, rest @ ..] => match volume.look(id) {
            None | Some(Image::Gone) => Ok(Err(Refusal::NotFound(place))),
            Some(Image::File { .. }) => Ok(Err(Refusal::NotDir(place))),
            Some(Image::Dir { entries, .. }) => match entries.get(name) {
                None => Ok(Err(Refusal::NotFound(place + 1))),
                Some(next) => walk_from(volume, place + 1, next, rest, read),
            },
        },
    }
}

// All names but the last.
pub(crate) fn parent_of(names: &[Name]) -> &[Name]
    requires { 1 ≤ length names.now }
    ensures { result.now ≡ parent_of names.now }
{
    &names[..names.len() - 1]
}

pub(crate) fn last_of(names: &[Name]) -> &Name
    requires { 1 ≤ length names.now }
    ensures { result.now ≡ last_of names.now }
{
    &names[names.len() - 1]
}
