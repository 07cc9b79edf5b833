// Changes of objects.
ghost use Rattle.std.specs.Prelude.{◌≡◌, ◌==◌, ◌&&◌, true, false, not, [], ◌∷◌, ◌++◌, IfOk, OnOk};
ghost use Rattle.std.specs.List.{filter, list_any};
ghost use Rattle.ec_volume.specs.Entries.{same_name};
ghost use Rattle.ec_volume.specs.Update.{listed, member, ids_of, operands, first_of, distinct, is_way, is_within, is_sound};
ghost use Rattle.ec_volume.specs.Carry.{renames};

use crate::image::Kind;
use crate::limits::{MAX_ABOVE, MAX_FILE_BYTES, MAX_MODE, MAX_ORDERED, MAX_WRITE_BYTES};
use ec_base::{Duplicate, List, Name, NoMemory, ObjId, duplicate_bytes};
use std::alloc::Global;

/// A change of some objects. Its operands are the objects that it tests or changes.
#[derive(Drop)]
pub enum Update {
    /// A new object of the kind, as an entry of the directory.
    Make {
        dir: ObjId,
        name: Name,
        obj: ObjId,
        kind: Kind,
    },
    /// The object goes, with its entry.
    Drop {
        dir: ObjId,
        name: Name,
        obj: ObjId,
        kind: Kind,
    },
    /// The object has another name in its directory, in the place of the victim, if any.
    Move {
        dir: ObjId,
        from: Name,
        to: Name,
        obj: ObjId,
        kind: Kind,
        victim: Option<ObjId>,
    },
    /// Bytes at a place of a file; `inside` where they lay inside its length when issued.
    Put {
        obj: ObjId,
        at: u32,
        bytes: List<u8>,
        inside: bool,
    },
    /// A file's length.
    Len {
        obj: ObjId,
        len: u32,
    },
    /// An object's mode.
    Mode {
        obj: ObjId,
        mode: u16,
    },
    /// An object's stamp.
    Stamp {
        obj: ObjId,
        stamp: u64,
    },
    /// No change: it ties the objects' operations to each other.
    Order {
        objs: List<ObjId>,
    },
    /// The object moves from one directory into another, in the place of the victim, if any. For a
    /// directory `up` has the directories from the root to the one above `into`, each with the name
    /// that leads on.
    Shift {
        dir: ObjId,
        from: Name,
        into: ObjId,
        to: Name,
        obj: ObjId,
        kind: Kind,
        victim: Option<ObjId>,
        up: List<(ObjId, Name)>,
    },
    /// An object's owner.
    Owner {
        obj: ObjId,
        owner: u32,
    },
}

impl Update {
    /// Whether the operands are distinct and the fields within their bounds. It takes no memory.
    pub fn sound(&self) -> bool
        ensures { result ≡ is_sound self.now }
    {
        match self {
            Update::Make { dir, obj, .. } | Update::Drop { dir, obj, .. } => dir != obj,
            Update::Move {
                dir,
                from,
                to,
                obj,
                victim,
                ..
            } => {
                let apart = match *victim {
                    None => dir != obj,
                    Some(victim) => distinct(&[*dir, *obj, victim]),
                };
                apart && !same_name(from, to)
            }
            Update::Put { at, bytes, .. } => {
                let len = bytes.as_slice().len();
                1 <= len && len <= MAX_WRITE_BYTES && *at as usize + len <= MAX_FILE_BYTES
            }
            Update::Len { len, .. } => *len as usize <= MAX_FILE_BYTES,
            Update::Mode { mode, .. } => *mode <= MAX_MODE,
            Update::Stamp { .. } | Update::Owner { .. } => true,
            Update::Order { objs } => {
                let objs = objs.as_slice();
                distinct(objs) && 1 <= objs.len() && objs.len() <= MAX_ORDERED
            }
            Update::Shift {
                dir,
                into,
                obj,
                kind,
                victim,
                up,
                ..
            } => is_shift_sound(*dir, *into, *obj, *kind, *victim, up.as_slice()),
        }
    }
}

fn same_name(a: &Name, b: &Name) -> bool
    ensures { result ≡ same_name a.now b.now }
{
    a.cmp(b).is_eq()
}

fn member(id: ObjId, ids: &[ObjId]) -> bool
    ensures { result ≡ member id ids.now }
{
    ids.contains(&id)
}

fn distinct(ids: &[ObjId]) -> bool
    ensures { result ≡ distinct ids.now }
{
    match ids {
        [] => true,
        [id, rest @ ..] => !member(*id, rest) && distinct(rest),
    }
}

// Whether the id is that of one of the directories.
fn member_ids(id: ObjId, up: &[(ObjId, Name)]) -> bool
    ensures { result ≡ member id (ids_of up.now) }
{
    match up {
        [] => false,
        [(dir, _), rest @ ..] => id == *dir || member_ids(id, rest),
    }
}

fn distinct_ids(up: &[(ObjId, Name)]) -> bool
    ensures { result ≡ distinct (ids_of up.now) }
{
    match up {
        [] => true,
        [(id, _), rest @ ..] => !member_ids(*id, rest) && distinct_ids(rest),
    }
}

fn is_shift_sound(
    dir: ObjId,
    into: ObjId,
    obj: ObjId,
    kind: Kind,
    victim: Option<ObjId>,
    up: &[(ObjId, Name)],
) -> bool
    ensures { result ≡ (distinct (dir ∷ into ∷ obj ∷ listed victim ++ filter (λ o. not (o == dir)) (ids_of up.now)) && (distinct (ids_of up.now) && is_way kind into up.now)) }
{
    if !distinct_ids(up) {
        return false;
    }
    is_apart(dir, into, obj, victim, up) && is_way(kind, into, up)
}

// Whether the operands of a move are distinct, where the ids above `into` are.
fn is_apart(
    dir: ObjId,
    into: ObjId,
    obj: ObjId,
    victim: Option<ObjId>,
    up: &[(ObjId, Name)],
) -> bool
    requires { distinct (ids_of up.now) ≡ true }
    ensures { result ≡ distinct (dir ∷ into ∷ obj ∷ listed victim ++ filter (λ o. not (o == dir)) (ids_of up.now)) }
{
    match victim {
        None => distinct(&[dir, into, obj]) && !meets(&[into, obj], up),
        Some(victim) => { distinct(&[dir, into, obj, victim]) && !meets(&[into, obj, victim], up) }
    }
}

// Whether one of the ids is that of one of the directories.
fn meets(ids: &[ObjId], up: &[(ObjId, Name)]) -> bool
    ensures { result ≡ list_any (λ o. member o (ids_of up.now)) ids.now }
{
    match ids {
        [] => false,
        [id, rest @ ..] => member_ids(*id, up) || meets(rest, up),
    }
}

// The directories above one that takes a file, or above the root, are left out; else they begin
// with the root.
fn is_way(kind: Kind, into: ObjId, up: &[(ObjId, Name)]) -> bool
    ensures { result ≡ is_way kind into up.now }
{
    match kind {
        Kind::File => up.is_empty(),
        Kind::Dir if into == ObjId::root() => up.is_empty(),
        Kind::Dir => match up {
            [] => false,
            [(first, _), ..] => up.len() <= MAX_ABOVE && *first == ObjId::root(),
        },
    }
}

/// The objects that the update tests or changes, in order.
pub fn operands(alloc: Global, update: &Update) -> Result<Vec<ObjId>, NoMemory>
    ensures { IfOk result (λ ids. ids.items ≡ operands update.now) }
{
    match update {
        Update::Make { dir, obj, .. } | Update::Drop { dir, obj, .. } => {
            Ok(Vec::from_slice(alloc, &[*dir, *obj])?)
        }
        Update::Move {
            dir,
            obj,
            victim,
            ..
        } => {
            let mut ids = Vec::from_slice(alloc, &[*dir, *obj])?;
            push_victim(&mut ids, *victim)?;
            Ok(ids)
        }
        Update::Put { obj, .. }
        | Update::Len { obj, .. }
        | Update::Mode { obj, .. }
        | Update::Stamp { obj, .. }
        | Update::Owner { obj, .. } => Ok(Vec::from_slice(alloc, &[*obj])?),
        Update::Order { objs } => Ok(Vec::from_slice(alloc, objs.as_slice())?),
        Update::Shift {
            dir,
            into,
            obj,
            victim,
            up,
            ..
        } => {
            let mut ids = Vec::from_slice(alloc, &[*dir, *into, *obj])?;
            push_victim(&mut ids, *victim)?;
            push_others(&mut ids, *dir, up.as_slice())?;
            Ok(ids)
        }
    }
}

fn push_victim(ids: &mut Vec<ObjId>, victim: Option<ObjId>) -> Result<(), NoMemory>
    ensures { OnOk result (ids.new.items ≡ ids.old.items ++ listed victim) }
{
    if let Some(id) = victim {
        ids.push(id)?;
    }
    Ok(())
}

// The ids of the directories other than this one.
fn push_others(ids: &mut Vec<ObjId>, dir: ObjId, up: &[(ObjId, Name)]) -> Result<(), NoMemory>
    ensures { OnOk result (ids.new.items ≡ ids.old.items ++ filter (λ o. not (o == dir)) (ids_of up.now)) }
{
    for (id, _) in up {
        if *id != dir {
            ids.push(*id)?;
        }
    }
    Ok(())
}

impl Duplicate for Update {
    fn duplicate(&self) -> Result<Self, NoMemory> {
        Ok(match self {
            Update::Make {
                dir,
                name,
                obj,
                kind,
            } => Update::Make {
                dir: *dir,
                name: name.duplicate()?,
                obj: *obj,
                kind: *kind,
            },
            Update::Drop {
                dir,
                name,
                obj,
                kind,
            } => Update::Drop {
                dir: *dir,
                name: name.duplicate()?,
                obj: *obj,
                kind: *kind,
            },
            Update::Move {
                dir,
                from,
                to,
                obj,
                kind,
                victim,
            } => Update::Move {
                dir: *dir,
                from: from.duplicate()?,
                to: to.duplicate()?,
                obj: *obj,
                kind: *kind,
                victim: *victim,
            },
            Update::Shift {
                dir,
                from,
                into,
                to,
                obj,
                kind,
                victim,
                up,
            } => Update::Shift {
                dir: *dir,
                from: from.duplicate()?,
                into: *into,
                to: to.duplicate()?,
                obj: *obj,
                kind: *kind,
                victim: *victim,
                up: up.duplicate()?,
            },
            _ => return duplicate_itself(self),
        })
    }
}

// The copy of an update of an object's own parts.
fn duplicate_itself(update: &Update) -> Result<Update, NoMemory>
    requires { renames update.now ≡ false }
    ensures { IfOk result (λ copy. copy ≡ update.now) }
{
    Ok(match update {
        Update::Put {
            obj,
            at,
            bytes,
            inside,
        } => Update::Put {
            obj: *obj,
            at: *at,
            bytes: duplicate_bytes(bytes)?,
            inside: *inside,
        },
        Update::Len { obj, len } => Update::Len {
            obj: *obj,
            len: *len,
        },
        Update::Mode { obj, mode } => Update::Mode {
            obj: *obj,
            mode: *mode,
        },
        Update::Stamp { obj, stamp } => Update::Stamp {
            obj: *obj,
            stamp: *stamp,
        },
        Update::Order { objs } => Update::Order {
            objs: objs.duplicate()?,
        },
        Update::Owner { obj, owner } => Update::Owner {
            obj: *obj,
            owner: *owner,
        },
        _ => unreachable!(),
    })
}
