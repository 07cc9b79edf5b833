// How far the first operations of a closure reach.
ghost use Rattle.std.specs.Prelude.{◌≡◌, ◌≤◌, ℕ, T, false, filter, OnOk};
ghost use Rattle.std.specs.Ordering.{nat_cmp};
ghost use Rattle.std.specs.FinMap.{is_sorted};
ghost use Rattle.ec_base.specs.Tables.{at_or};
ghost use Rattle.ec_volume.specs.Update.{member, has_operand, operands};
ghost use Rattle.std.specs.List.Sorted.{IsNonDecreasing};
ghost use Rattle.ec_volume.specs.declared.update.Update.{Update as Of};
ghost use Rattle.ec_order.specs.Order.{Holds};
ghost use Rattle.ec_log.specs.OfChains.Chains.{IsReached, touches};
ghost use Rattle.ec_log.specs.OfChains.Front.{is_alone, IsBound};
ghost use Rattle.ec_log.specs.OfChains.Held.{first_number};
ghost use Rattle.ec_log.specs.OfChains.Slots.{live, placed};
ghost use Rattle.ec_log.specs.declared.chains.closure.Ask.TheVariants.{Object};

use crate::chains::slots::Slot;
use crate::chains::walking::place_on;
use ec_base::{NoMemory, ObjId, OpNo};
use ec_order::objmap::ObjMap;
use ec_volume::{Update, operands};
use std::alloc::Global;

/// How far the closure of the object reaches, by its chain: so many operations on it come before the
/// place, and those behind it are above the bound.
pub fn reach_on(chain: &[OpNo], held: &[Slot], obj: ObjId, bound: u64, most: usize) -> usize
    requires sorted { T (is_sorted nat_cmp (placed held.now)) }
    requires rising { IsNonDecreasing chain.now }
    requires linked { (n : ℕ) (u : Of) → Holds (placed held.now) n u → T (has_operand obj u) → T (member n chain.now) }
    requires bound { IsBound (Object obj) (placed held.now) bound }
    ensures { IsReached (Object obj) (placed held.now) most result }
{
    let mut place = 0;
    let mut found = 0;
    'reach: for op in chain {
        if most <= found && bound < op.0 {
            return place;
        }
        if let Some(at) = place_on(&held[place..], *op, obj) {
            place += at + 1;
            found += 1;
        }
    }
    place
}

/// The first operation on the object that is held, by its chain.
pub fn first_on(chain: &[OpNo], held: &[Slot], obj: ObjId) -> Option<OpNo>
    requires sorted { T (is_sorted nat_cmp (placed held.now)) }
    requires rising { IsNonDecreasing chain.now }
    requires linked { (n : ℕ) (u : Of) → Holds (placed held.now) n u → T (has_operand obj u) → T (member n chain.now) }
    ensures { result ≡ first_number (filter (touches obj) (live held.now)) }
{
    'each: for op in chain {
        if place_on(held, *op, obj).is_some() {
            return Some(*op);
        }
    }
    None
}

/// Whether the update is on one object alone.
pub fn is_alone(update: &Update) -> bool
    ensures { result ≡ is_alone update.now }
{
    matches!(
        update,
        Update::Put { .. }
            | Update::Len { .. }
            | Update::Mode { .. }
            | Update::Stamp { .. }
            | Update::Owner { .. }
    )
}

/// The last of these operations on the object, or 0.
pub fn last_on(shared: &ObjMap<OpNo>, obj: ObjId) -> u64
    ensures { result ≡ at_or 0 obj shared.now }
{
    match shared.get(&obj) {
        Some(op) => op.0,
        None => 0,
    }
}

/// An operation that is on several objects is the last such one on each of them.
pub fn note(
    alloc: Global,
    shared: &mut ObjMap<OpNo>,
    op: OpNo,
    update: &Update,
) -> Result<(), NoMemory>
    ensures old { (o n : ℕ) → n ≤ at_or 0 o shared.old → n ≤ op → n ≤ at_or 0 o shared.new }
    ensures new { OnOk result (is_alone update.now ≡ false → (o : ℕ) → T (member o (operands update.now)) → op ≤ at_or 0 o shared.new) }
{
    if is_alone(update) {
        return Ok(());
    }
    let objs = operands(alloc, update)?;
    note_all(shared, &objs, op)
}

fn note_all(shared: &mut ObjMap<OpNo>, objs: &[ObjId], op: OpNo) -> Result<(), NoMemory>
    ensures old { (o n : ℕ) → n ≤ at_or 0 o shared.old → n ≤ op → n ≤ at_or 0 o shared.new }
    ensures new { OnOk result ((o : ℕ) → T (member o objs.now) → op ≤ at_or 0 o shared.new) }
{
    match objs {
        [] => Ok(()),
        [obj, rest @ ..] => {
            shared.insert(*obj, op)?;
            note_all(shared, rest, op)
        }
    }
}
