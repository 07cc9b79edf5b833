// Renames.
ghost use Rattle.std.specs.Prelude.{◌≡◌, ◌≤◌, ◌++◌, ℕ, List as Listed, length, IfOk, OnOk};
ghost use Rattle.ec_base.specs.Limits.{max_path_names};
ghost use Rattle.ec_volume.specs.Image.{entries_of};
ghost use Rattle.ec_volume.specs.Update.{member};
ghost use Rattle.ec_plain.specs.Walk.{parent_of, last_of, same_path};
ghost use Rattle.ec_plain.specs.Plain.{kind_of, blocked, with_names, above, renames, move_into, loops, rename_in, plain_rename};

use crate::call::{Outcome, Refusal, Reply};
use crate::object::{entries_of, is_dir};
use crate::outcome::{answers, issues, refuses};
use crate::step::{Found, Step, entry_at};
use crate::walk::{Walked, last_of, parent_of, walk};
use ec_base::{Duplicate, List, Name, NoMemory, ObjId};
use ec_volume::{Entries, Image, Kind, Look, MAX_ENTRIES, Update};
use std::alloc::Global;

#[inline(never)]
pub(crate) fn plain_rename<V: Look>(
    alloc: Global,
    volume: &V,
    path: &[Name],
    target: &[Name],
) -> Result<Outcome, NoMemory>
    requires first { length path.now ≤ max_path_names }
    requires second { length target.now ≤ max_path_names }
    ensures { IfOk result (λ outcome. outcome ≡ plain_rename (V.images volume.now) path.now target.now) }
{
    if path.is_empty() || target.is_empty() {
        return Ok(refuses(Refusal::Root, Vec::new(alloc)));
    }
    match entry_at(alloc, volume, path)? {
        Step::Ends(outcome) => Ok(outcome),
        Step::Goes(found) => rename_in(alloc, volume, path, target, found),
    }
}

// The rest of the rename of an object of the directory.
fn rename_in<V: Look>(
    alloc: Global,
    volume: &V,
    path: &[Name],
    target: &[Name],
    found: Found,
) -> Result<Outcome, NoMemory>
    requires first { 1 ≤ length path.now }
    requires second { 1 ≤ length target.now }
    requires few { length target.now ≤ max_path_names }
    ensures { IfOk result (λ outcome. outcome ≡ rename_in (V.images volume.now) path.now target.now found.dir (entries_of (V.images volume.now found.dir)) found.obj found.read.items) }
{
    let Found { dir, obj, mut read } = found;
    if same_path(path, target) {
        return Ok(answers(Reply::Ok, read));
    }
    let Walked { to, read: passed } = walk(alloc, volume, parent_of(target))?;
    read.extend_from_slice(&passed)?;
    let into = match to {
        Err(refusal) => return Ok(refuses(refusal, read)),
        Ok(into) => into,
    };
    let Some(entries) = entries_of(volume, into) else {
        return Ok(refuses(Refusal::NotDir(target.len() as u8 - 1), read));
    };
    if loops(volume, obj, &passed) {
        return Ok(refuses(Refusal::Loop, read));
    }
    let up = above(alloc, kind_of(volume, obj), &passed, parent_of(target))?;
    let mover = Mover {
        dir,
        into,
        obj,
        kind: kind_of(volume, obj),
        up,
    };
    move_into(volume, path, target, mover, entries, read)
}

// An object that moves from a directory into one, and the directories above that.
#[derive(Drop)]
struct Mover {
    dir: ObjId,
    into: ObjId,
    obj: ObjId,
    kind: Kind,
    up: List<(ObjId, Name)>,
}

// The object moves to the second path, whose parent has these entries.
fn move_into<V: Look>(
    volume: &V,
    path: &[Name],
    target: &[Name],
    mover: Mover,
    entries: &Entries,
    mut read: Vec<ObjId>,
) -> Result<Outcome, NoMemory>
    requires first { 1 ≤ length path.now }
    requires second { 1 ≤ length target.now }
    requires few { length target.now ≤ max_path_names }
    ensures { IfOk result (λ outcome. (passed : Listed ℕ) → mover.kind ≡ kind_of (V.images volume.now mover.obj) → mover.up ≡ above mover.kind passed (parent_of target.now)
        → outcome ≡ move_into (V.images volume.now) path.now target.now mover.dir mover.obj mover.into entries.now passed read.items) }
{
    match entries.get(last_of(target)) {
        None => {
            if mover.dir != mover.into && entries.len() >= MAX_ENTRIES {
                return Ok(refuses(Refusal::DirFull, read));
            }
            renames(mover, last_of(path), last_of(target), None, read)
        }
        Some(victim) => {
            read.push(victim)?;
            match blocked(mover.kind, volume, victim, target.len() as u8) {
                Some(refusal) => Ok(refuses(refusal, read)),
                None => renames(mover, last_of(path), last_of(target), Some(victim), read),
            }
        }
    }
}

// The object gets a new name in its directory or in another one.
fn renames(
    mover: Mover,
    from: &Name,
    to: &Name,
    victim: Option<ObjId>,
    read: Vec<ObjId>,
) -> Result<Outcome, NoMemory>
    ensures { IfOk result (λ outcome. outcome ≡ renames mover.dir from.now mover.into to.now mover.obj mover.kind victim mover.up read.items) }
{
    let Mover {
        dir,
        into,
        obj,
        kind,
        up,
    } = mover;
    let from = from.duplicate()?;
    let to = to.duplicate()?;
    if dir == into {
        return Ok(issues(
            Update::Move {
                dir,
                from,
                to,
                obj,
                kind,
                victim,
            },
            read,
        ));
    }
    Ok(issues(
        Update::Shift {
            dir,
            from,
            into,
            to,
            obj,
            kind,
            victim,
            up,
        },
        read,
    ))
}

fn kind_of<V: Look>(volume: &V, id: ObjId) -> Kind
    ensures { result ≡ kind_of (V.images volume.now id) }
{
    if is_dir(volume, id) {
        Kind::Dir
    } else {
        Kind::File
    }
}

// Whether an object of the kind may not take the place of this one, which so many names lead to.
fn blocked<V: Look>(kind: Kind, volume: &V, victim: ObjId, place: u8) -> Option<Refusal>
    ensures { result ≡ blocked kind (V.images volume.now victim) place }
{
    match (kind, volume.look(victim)) {
        (Kind::File, Some(Image::Dir { .. })) => Some(Refusal::IsDir),
        (Kind::Dir, Some(Image::File { .. })) => Some(Refusal::NotDir(place)),
        (Kind::Dir, Some(Image::Dir { entries, .. })) if entries.len() > 0 => {
            Some(Refusal::NotEmpty)
        }
        _ => None,
    }
}

// No directory moves into itself or below itself.
fn loops<V: Look>(volume: &V, obj: ObjId, passed: &[ObjId]) -> bool
    ensures { result ≡ loops (V.images volume.now) obj passed.now }
{
    is_dir(volume, obj) && passed.contains(&obj)
}

// The directories that a walk of these names read, of a directory that moves.
fn above(
    alloc: Global,
    kind: Kind,
    passed: &[ObjId],
    names: &[Name],
) -> Result<List<(ObjId, Name)>, NoMemory>
    ensures { IfOk result (λ up. up ≡ above kind passed.now names.now) }
{
    let mut up = Vec::new(alloc);
    if kind == Kind::Dir {
        with_names(&mut up, passed, names)?;
    }
    Ok(List::of(up))
}

// Directories, each with the name that leads on from it.
fn with_names(up: &mut Vec<(ObjId, Name)>, dirs: &[ObjId], names: &[Name]) -> Result<(), NoMemory>
    ensures { OnOk result (up.new.items ≡ up.old.items ++ with_names dirs.now names.now) }
{
    match dirs {
        [] => Ok(()),
        [dir, dirs @ ..] => match names {
            [] => Ok(()),
            [name, names @ ..] => {
                up.push((*dir, name.duplicate()?))?;
                with_names(up, dirs, names)
            }
        },
    }
}

fn same_path(path: &[Name], other: &[Name]) -> bool
    ensures { result ≡ same_path path.now other.now }
{
    match path {
        [] => other.is_empty(),
        [m, path @ ..] => match other {
            [] => false,
            [n, other @ ..] => m.cmp(n).is_eq() && same_path(path, other),
        },
    }
}
