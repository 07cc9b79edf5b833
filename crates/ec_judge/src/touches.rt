// Which calls touched each object.
ghost use Rattle.std.specs.Prelude.{◌≡◌, ◌==◌, ℕ, if◌then◌else◌, Some, IfOk, OnOk};
ghost use Rattle.std.specs.List.{list_any};
ghost use Rattle.ec_volume.specs.Update.{member};
ghost use Rattle.ec_judge.specs.Carried.{touched_next, touches_in, is_since, is_touched};

use crate::carried::{Kept, Touches};
use ec_base::{ClerkId, NoMemory, ObjId};
use ec_order::objtable::ObjTable;
use ec_volume::operands;
use std::alloc::Global;

/// A call of the clerk touched these objects at this turn.
#[inline(never)]
pub fn touch_all(
    touches: &mut ObjTable<Touches>,
    clerk: ClerkId,
    turn: usize,
    objs: &[ObjId],
) -> Result<(), NoMemory>
    ensures { OnOk result ((o : ℕ) → touches_in touches.new o ≡ (if member o objs.now then Some (touched_next clerk turn (touches_in touches.old o)) else touches_in touches.old o)) }
{
    match objs {
        [] => Ok(()),
        [obj, rest @ ..] => {
            touch(touches, clerk, turn, *obj)?;
            touch_all(touches, clerk, turn, rest)
        }
    }
}

// The same of one object.
fn touch(
    touches: &mut ObjTable<Touches>,
    clerk: ClerkId,
    turn: usize,
    obj: ObjId,
) -> Result<(), NoMemory>
    ensures { OnOk result ((o : ℕ) → touches_in touches.new o ≡ (if o == obj then Some (touched_next clerk turn (touches_in touches.old obj)) else touches_in touches.old o)) }
{
    let other = match touches.get(obj) {
        None => 0,
        Some(known) => last_of_others(known, clerk),
    };
    let next = Touches {
        clerk,
        last: turn,
        other,
    };
    touches.insert(obj, next)
}

// The turn of the last call of another clerk than this one, or 0.
fn last_of_others(known: &Touches, clerk: ClerkId) -> usize
    ensures { result ≡ (if known.now.clerk == clerk then known.now.other else known.now.last) }
{
    if known.clerk == clerk {
        known.other
    } else {
        known.last
    }
}

/// Whether a call of another clerk touched an operand of the operation since it was issued.
pub fn is_touched(alloc: Global, touches: &ObjTable<Touches>, kept: &Kept) -> Result<bool, NoMemory>
    ensures { IfOk result (λ touched. touched ≡ is_touched (touches_in touches.now) kept.now) }
{
    let objs = operands(alloc, &kept.update)?;
    Ok(is_one_since(touches, kept.clerk, kept.turn, &objs))
}

fn is_one_since(touches: &ObjTable<Touches>, clerk: ClerkId, turn: usize, objs: &[ObjId]) -> bool
    ensures { result ≡ list_any (λ o. is_since clerk turn (touches_in touches.now o)) objs.now }
{
    objs.iter().any(|obj| is_since(touches, clerk, turn, *obj))
}

// Whether a call of another clerk touched the object behind this turn.
fn is_since(touches: &ObjTable<Touches>, clerk: ClerkId, turn: usize, obj: ObjId) -> bool
    ensures { result ≡ is_since clerk turn (touches_in touches.now obj) }
{
    match touches.get(obj) {
        None => false,
        Some(known) => turn < last_of_others(known, clerk),
    }
}
