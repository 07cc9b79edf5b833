// What is done at the object that a walk reached.
ghost use Rattle.std.specs.Prelude.{◌≡◌, length, map, take, drop, IfOk};
ghost use Rattle.ec_volume.specs.Image.{bytes_of, entries_of};
ghost use Rattle.ec_plain.specs.Walk.{Path};
ghost use Rattle.ec_plain.specs.Plain.{write_in, len_in, read_in, list_in, stat_of};

use crate::call::{Outcome, Refusal, Reply};
use crate::object::{entries_of, file_bytes, is_dir};
use crate::outcome::{answers, issues, refuses};
use ec_base::{Duplicate, List, Name, NoMemory, ObjId, duplicate_bytes};
use ec_volume::{Entries, Image, Kind, Look, MAX_FILE_BYTES, Update};
use std::alloc::Global;

pub(crate) fn write_in<V: Look>(
    volume: &V,
    at: u32,
    bytes: &List<u8>,
    obj: ObjId,
    read: Vec<ObjId>,
) -> Result<Outcome, NoMemory>
    ensures { IfOk result (λ outcome. outcome ≡ write_in (V.images volume.now) at bytes.now obj read.items) }
{
    let Some(there) = file_bytes(volume, obj) else {
        return Ok(refuses(Refusal::IsDir, read));
    };
    let end = at as usize + bytes.as_slice().len();
    if end > MAX_FILE_BYTES {
        return Ok(refuses(Refusal::TooLong, read));
    }
    let inside = end <= there.len();
    let bytes = duplicate_bytes(bytes)?;
    Ok(issues(
        Update::Put {
            obj,
            at,
            bytes,
            inside,
        },
        read,
    ))
}

pub(crate) fn len_in<V: Look>(volume: &V, len: u32, obj: ObjId, read: Vec<ObjId>) -> Outcome
    ensures { result ≡ len_in (V.images volume.now) len obj read.items }
{
    if is_dir(volume, obj) {
        return refuses(Refusal::IsDir, read);
    }
    if len as usize > MAX_FILE_BYTES {
        return refuses(Refusal::TooLong, read);
    }
    issues(Update::Len { obj, len }, read)
}

pub(crate) fn read_in<V: Look>(
    alloc: Global,
    volume: &V,
    at: u32,
    count: u32,
    obj: ObjId,
    read: Vec<ObjId>,
) -> Result<Outcome, NoMemory>
    ensures { IfOk result (λ outcome. outcome ≡ read_in (V.images volume.now) at count obj read.items) }
{
    let Some(bytes) = file_bytes(volume, obj) else {
        return Ok(refuses(Refusal::IsDir, read));
    };
    let bytes = Vec::from_slice(alloc, part(bytes, at as usize, count as usize))?;
    Ok(answers(Reply::Data(List::of(bytes)), read))
}

// At most so many bytes from a place on.
fn part(bytes: &[u8], at: usize, count: usize) -> &[u8]
    ensures { result.now ≡ take count (drop at bytes.now) }
{
    let rest = &bytes[at.min(bytes.len())..];
    &rest[..count.min(rest.len())]
}

pub(crate) fn list_in<V: Look>(
    alloc: Global,
    volume: &V,
    place: u8,
    obj: ObjId,
    read: Vec<ObjId>,
) -> Result<Outcome, NoMemory>
    ensures { IfOk result (λ outcome. (path : Path) → length path ≡ place → outcome ≡ list_in (V.images volume.now) path obj read.items) }
{
    match entries_of(volume, obj) {
        None => Ok(refuses(Refusal::NotDir(place), read)),
        Some(entries) => {
            let names = names_of(alloc, entries)?;
            Ok(answers(Reply::Names(List::of(names)), read))
        }
    }
}

fn names_of(alloc: Global, entries: &Entries) -> Result<Vec<Name>, NoMemory>
    ensures { IfOk result (λ names. names.items ≡ map (λ e. e.0) entries.now) }
{
    let mut names = Vec::with_capacity(alloc, entries.len())?;
    'names: while let Some((name, _)) = entries.at(names.len()) {
        names.push(name.duplicate()?)?;
    }
    Ok(names)
}

// What the object shows.
pub(crate) fn stat_of<V: Look>(volume: &V, obj: ObjId) -> Reply
    ensures { result ≡ stat_of (V.images volume.now obj) }
{
    match volume.look(obj) {
        Some(
            Image::File {
                mode,
                stamp,
                owner,
                bytes,
            },
        ) => Reply::Stat {
            kind: Kind::File,
            mode: *mode,
            stamp: *stamp,
            owner: *owner,
            size: bytes.as_slice().len() as u32,
        },
        Some(
            Image::Dir {
                mode,
                stamp,
                owner,
                entries,
            },
        ) => Reply::Stat {
            kind: Kind::Dir,
            mode: *mode,
            stamp: *stamp,
            owner: *owner,
            size: entries.len() as u32,
        },
        Some(Image::Gone) | None => Reply::Stat {
            kind: Kind::File,
            mode: 0,
            stamp: 0,
            owner: 0,
            size: 0,
        },
    }
}
