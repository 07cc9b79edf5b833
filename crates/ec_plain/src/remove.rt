// Removals.
ghost use Rattle.std.specs.Prelude.{◌≡◌, ◌≤◌, length, IfOk};
ghost use Rattle.ec_base.specs.Limits.{max_path_names};
ghost use Rattle.ec_volume.specs.Image.{entries_of};
ghost use Rattle.ec_plain.specs.Plain.{drop_in, plain_drop};

use crate::call::{Outcome, Refusal};
use crate::object::{entries_of, is_dir};
use crate::outcome::{issues, refuses};
use crate::step::{Found, Step, entry_at};
use crate::walk::last_of;
use ec_base::{Duplicate, Name, NoMemory};
use ec_volume::{Kind, Look, Update};
use std::alloc::Global;

#[inline(never)]
pub(crate) fn plain_drop<V: Look>(
    alloc: Global,
    volume: &V,
    kind: Kind,
    names: &[Name],
) -> Result<Outcome, NoMemory>
    requires { length names.now ≤ max_path_names }
    ensures { IfOk result (λ outcome. outcome ≡ plain_drop (V.images volume.now) kind names.now) }
{
    match names {
        [] => Ok(refuses(Refusal::Root, Vec::new(alloc))),
        [_, ..] => match entry_at(alloc, volume, names)? {
            Step::Ends(outcome) => Ok(outcome),
            Step::Goes(found) => drop_in(volume, kind, names, found),
        },
    }
}

// The object goes from the directory.
fn drop_in<V: Look>(
    volume: &V,
    kind: Kind,
    names: &[Name],
    found: Found,
) -> Result<Outcome, NoMemory>
    requires some { 1 ≤ length names.now }
    requires few { length names.now ≤ max_path_names }
    ensures { IfOk result (λ outcome. outcome ≡ drop_in (V.images volume.now) kind names.now found.dir (entries_of (V.images volume.now found.dir)) found.obj found.read.items) }
{
    let Found { dir, obj, read } = found;
    match kind {
        Kind::File => {
            if is_dir(volume, obj) {
                return Ok(refuses(Refusal::IsDir, read));
            }
        }
        Kind::Dir => match entries_of(volume, obj) {
            None => return Ok(refuses(Refusal::NotDir(names.len() as u8), read)),
            Some(entries) => {
                if entries.len() > 0 {
                    return Ok(refuses(Refusal::NotEmpty, read));
                }
            }
        },
    }
    let name = last_of(names).duplicate()?;
    Ok(issues(
        Update::Drop {
            dir,
            name,
            obj,
            kind,
        },
        read,
    ))
}
