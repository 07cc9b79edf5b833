// Operands, without a list of them.
ghost use Rattle.std.specs.Prelude.{◌≡◌, ◌==◌, ◌||◌};
ghost use Rattle.ec_volume.specs.Update.{member, ids_of, listed, has_operand};

use ec_base::{Name, ObjId};
use ec_volume::Update;

/// Whether the object is an operand of the update. It takes no memory.
pub fn has_operand(update: &Update, id: ObjId) -> bool
    ensures { result ≡ has_operand id update.now }
{
    match update {
        Update::Make { dir, obj, .. } | Update::Drop { dir, obj, .. } => id == *dir || id == *obj,
        Update::Move {
            dir,
            obj,
            victim,
            ..
        } => id == *dir || id == *obj || is_victim(*victim, id),
        Update::Put { obj, .. }
        | Update::Len { obj, .. }
        | Update::Mode { obj, .. }
        | Update::Stamp { obj, .. }
        | Update::Owner { obj, .. } => id == *obj,
        Update::Order { objs } => objs.as_slice().contains(&id),
        Update::Shift {
            dir,
            into,
            obj,
            victim,
            up,
            ..
        } => id == *dir || is_beside(*into, *obj, *victim, up.as_slice(), id),
    }
}

// Whether the object is an operand of a move out of another directory.
fn is_beside(
    into: ObjId,
    obj: ObjId,
    victim: Option<ObjId>,
    up: &[(ObjId, Name)],
    id: ObjId,
) -> bool
    ensures { result ≡ (id == into || (id == obj || (member id (listed victim) || member id (ids_of up.now)))) }
{
    id == into || id == obj || is_victim(victim, id) || is_above(up, id)
}

fn is_victim(victim: Option<ObjId>, id: ObjId) -> bool
    ensures { result ≡ member id (listed victim) }
{
    match victim {
        Some(other) => id == other,
        None => false,
    }
}

fn is_above(up: &[(ObjId, Name)], id: ObjId) -> bool
    ensures { result ≡ member id (ids_of up.now) }
{
    match up {
        [] => false,
        [(other, _), rest @ ..] => id == *other || is_above(rest, id),
    }
}
