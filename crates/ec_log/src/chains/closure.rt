// Closures, by a walk from the last operation to the first over the chains of the objects that it meets.
ghost use Rattle.std.specs.Prelude.{◌≡◌, ◌||◌, ◌++◌, ◌∷◌, [], T, true, false, IfOk, OnOk};
ghost use Rattle.std.specs.Ordering.{nat_cmp};
ghost use Rattle.std.specs.FinMap.{is_sorted};
ghost use Rattle.ec_base.specs.Tables.{keys};
ghost use Rattle.ec_volume.specs.declared.update.Update.{Update as Of};
ghost use Rattle.ec_order.specs.Order.{needs};
ghost use Rattle.ec_order.specs.OfNeeded.Needed.{is_needed};
ghost use Rattle.ec_log.specs.OfChains.Chains.{AreLinked};
ghost use Rattle.ec_log.specs.OfChains.Slots.{live, placed, IsThere};
ghost use Rattle.ec_log.specs.OfChains.Walk.{passes, walk};

use crate::chains::chain::Chain;
use crate::chains::operand::has_operand;
use crate::chains::slots::Slot;
use crate::chains::walking::{await_operands, begin, take_last};
use ec_base::{NoMemory, ObjId, OpNo};
use ec_order::needed::Needed;
use ec_order::objmap::ObjMap;
use ec_volume::Update;
use std::alloc::Global;

/// Which operations are asked for by themselves.
#[derive(Clone, Copy, Drop)]
pub enum Ask {
    /// Those on an object.
    Object(ObjId),
    Op(OpNo),
    All,
}

/// Whether the operation is asked for by itself. It takes no memory.
pub fn passes(ask: &Ask, op: OpNo, update: &Update) -> bool
    ensures { result ≡ passes ask.now (op, update.now) }
{
    match ask {
        Ask::Object(obj) => has_operand(update, *obj),
        Ask::Op(other) => op == *other,
        Ask::All => true,
    }
}

// The operation is chosen where it's asked for by itself, or a chosen one needs it.
fn choose(
    ask: &Ask,
    needed: &mut Needed,
    ops: &mut Vec<OpNo>,
    op: OpNo,
    update: &Update,
) -> Result<(), NoMemory>
    ensures chosen { OnOk result ((passes ask.now (op, update.now) || is_needed needed.old.others needed.old.ranges update.now) ≡ true → (ops.new.items ≡ ops.old.items ++ op ∷ [])
        × ((x : Of) → is_needed needed.new.others needed.new.ranges x ≡ (needs x update.now || is_needed needed.old.others needed.old.ranges x))) }
    ensures others { OnOk result ((passes ask.now (op, update.now) || is_needed needed.old.others needed.old.ranges update.now) ≡ false → (ops.new.items ≡ ops.old.items)
        × (needed.new.others ≡ needed.old.others) × (needed.new.ranges ≡ needed.old.ranges)) }
{
    needed.choose(passes(ask, op, update), ops, op, update)
}

/// The closure of what is asked for, in the order of issue. The chains of the objects that are met are
/// walked, and each operation is looked at once.
pub fn closure(
    alloc: Global,
    held: &[Slot],
    chains: &ObjMap<Chain>,
    ask: &Ask,
) -> Result<Vec<OpNo>, NoMemory>
    requires sorted { T (is_sorted nat_cmp (placed held.now)) }
    requires linked { AreLinked chains.now (placed held.now) }
    requires there { IsThere ask.now held.now }
    ensures { IfOk result (λ ops. ops.items ≡ keys (walk (passes ask.now) (live held.now))) }
{
    let mut places = begin(alloc, held, chains, ask)?;
    let mut needed = Needed::new(alloc);
    let mut ops = Vec::new(alloc);
    let mut rest = held;
    'walk: loop {
        let Some(place) = take_last(&mut places) else {
            break;
        };
        let (op, update) = &rest[place];
        rest = &rest[..place];
        let Some(update) = update else {
            continue;
        };
        await_operands(alloc, &mut places, chains, rest, update)?;
        choose(ask, &mut needed, &mut ops, *op, update)?;
    }
    ops.reverse();
    Ok(ops)
}
