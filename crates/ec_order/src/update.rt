// How two updates of one start of a clerk are ordered.
ghost use Rattle.std.specs.Prelude.{◌≡◌, ◌==◌, ◌++◌, not};
ghost use Rattle.std.specs.List.{filter, list_any};
ghost use Rattle.ec_volume.specs.Update.{ids_of, listed, member, operands};
ghost use Rattle.ec_order.specs.Order.{before, is_overwrite, meet, share, under};

use ec_base::{Name, ObjId};
use ec_volume::Update;

/// Whether the update is a write that lay inside its file's length when it was issued.
pub fn is_overwrite(update: &Update) -> bool
    ensures { result ≡ is_overwrite update.now }
{
    matches!(update, Update::Put { inside: true, .. })
}

/// Whether the earlier update `a` of a start is ordered before `b`: they have an object in common,
/// and aren't both overwrites.
pub fn before(a: &Update, b: &Update) -> bool
    ensures { result ≡ before a.now b.now }
{
    share(a, b) && !(is_overwrite(a) && is_overwrite(b))
}

/// Whether the earlier update `a` of a start is under `b`: both are overwrites of one file, and
/// their bytes meet.
pub fn under(a: &Update, b: &Update) -> bool
    ensures { result ≡ under a.now b.now }
{
    match (a, b) {
        (
            Update::Put {
                obj,
                at,
                bytes,
                inside: true,
            },
            Update::Put {
                obj: other,
                at: next,
                bytes: more,
                inside: true,
            },
        ) => obj == other && meet(*at, bytes.as_slice().len(), *next, more.as_slice().len()),
        _ => false,
    }
}

// Whether so many bytes from one place and so many from another have a place in common.
fn meet(at: u32, count: usize, next: u32, more: usize) -> bool
    ensures { result ≡ meet at count next more }
{
    let (from, to) = (u128::from(at), u128::from(next));
    count > 0 && more > 0 && from < to + more as u128 && to < from + count as u128
}

// Whether the updates have an operand in common.
fn share(a: &Update, b: &Update) -> bool
    ensures { result ≡ share a.now b.now }
{
    match a {
        Update::Make { dir, obj, .. } | Update::Drop { dir, obj, .. } => {
            touches(b, *dir) || touches(b, *obj)
        }
        Update::Move {
            dir,
            obj,
            victim,
            ..
        } => touches(b, *dir) || touches(b, *obj) || touches_victim(b, *victim),
        Update::Put { obj, .. }
        | Update::Len { obj, .. }
        | Update::Mode { obj, .. }
        | Update::Stamp { obj, .. }
        | Update::Owner { obj, .. } => touches(b, *obj),
        Update::Order { objs } => touches_one(b, objs.as_slice()),
        Update::Shift {
            dir,
            into,
            obj,
            victim,
            up,
            ..
        } => {
            touches(b, *dir)
                || touches(b, *into)
                || touches(b, *obj)
                || touches_rest(b, *victim, *dir, up.as_slice())
        }
    }
}

fn touches_victim(update: &Update, victim: Option<ObjId>) -> bool
    ensures { result ≡ list_any (λ o. member o (operands update.now)) (listed victim) }
{
    match victim {
        None => false,
        Some(obj) => touches(update, obj),
    }
}

fn touches_one(update: &Update, objs: &[ObjId]) -> bool
    ensures { result ≡ list_any (λ o. member o (operands update.now)) objs.now }
{
    match objs {
        [] => false,
        [obj, rest @ ..] => touches(update, *obj) || touches_one(update, rest),
    }
}

fn touches_rest(update: &Update, victim: Option<ObjId>, dir: ObjId, up: &[(ObjId, Name)]) -> bool
    ensures { result ≡ list_any (λ o. member o (operands update.now)) (listed victim ++ filter (λ o. not (o == dir)) (ids_of up.now)) }
{
    match victim {
        None => touches_other(update, dir, up),
        Some(obj) => touches(update, obj) || touches_other(update, dir, up),
    }
}

// One of the directories other than this one.
fn touches_other(update: &Update, dir: ObjId, up: &[(ObjId, Name)]) -> bool
    ensures { result ≡ list_any (λ o. member o (operands update.now)) (filter (λ o. not (o == dir)) (ids_of up.now)) }
{
    match up {
        [] => false,
        [(id, _), rest @ ..] => {
            (*id != dir && touches(update, *id)) || touches_other(update, dir, rest)
        }
    }
}

// Whether the object is an operand of the update.
fn touches(update: &Update, id: ObjId) -> bool
    ensures { result ≡ member id (operands update.now) }
{
    match update {
        Update::Make { dir, obj, .. } | Update::Drop { dir, obj, .. } => id == *dir || id == *obj,
        Update::Move {
            dir,
            obj,
            victim,
            ..
        } => id == *dir || id == *obj || is_victim(id, *victim),
        Update::Put { obj, .. }
        | Update::Len { obj, .. }
        | Update::Mode { obj, .. }
        | Update::Stamp { obj, .. }
        | Update::Owner { obj, .. } => id == *obj,
        Update::Order { objs } => is_one(id, objs.as_slice()),
        Update::Shift {
            dir,
            into,
            obj,
            victim,
            up,
            ..
        } => {
            id == *dir || id == *into || id == *obj || is_rest(id, *victim, *dir, up.as_slice())
        }
    }
}

fn is_victim(id: ObjId, victim: Option<ObjId>) -> bool
    ensures { result ≡ member id (listed victim) }
{
    match victim {
        None => false,
        Some(obj) => id == obj,
    }
}

fn is_one(id: ObjId, objs: &[ObjId]) -> bool
    ensures { result ≡ member id objs.now }
{
    match objs {
        [] => false,
        [obj, rest @ ..] => id == *obj || is_one(id, rest),
    }
}

fn is_rest(id: ObjId, victim: Option<ObjId>, dir: ObjId, up: &[(ObjId, Name)]) -> bool
    ensures { result ≡ member id (listed victim ++ filter (λ o. not (o == dir)) (ids_of up.now)) }
{
    match victim {
        None => is_other(id, dir, up),
        Some(obj) => id == obj || is_other(id, dir, up),
    }
}

fn is_other(id: ObjId, dir: ObjId, up: &[(ObjId, Name)]) -> bool
    ensures { result ≡ member id (filter (λ o. not (o == dir)) (ids_of up.now)) }
{
    match up {
        [] => false,
        [(first, _), rest @ ..] => (*first != dir && id == *first) || is_other(id, dir, rest),
    }
}
